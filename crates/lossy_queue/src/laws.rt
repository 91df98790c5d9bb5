//! Laws of the definitions. Each function only carries its statement.

ghost use Rattle.lossy_queue.specs.Laws.{DrawsThree, PutsOneDatagram, KeepsOrder, LosesAll};

/// A put draws three numbers, whatever becomes of the datagram.
pub fn draws_three()
    ensures { DrawsThree }
{}

/// A put adds the datagram at most twice, and no other.
pub fn puts_one_datagram()
    ensures { PutsOneDatagram }
{}

/// Where all rates are 0 the datagrams come in their order.
pub fn keeps_order()
    ensures { KeepsOrder }
{}

/// Where each of a thousand is lost none comes.
pub fn loses_all()
    ensures { LosesAll }
{}

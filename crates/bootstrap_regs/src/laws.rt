//! Laws of the registers. Each function only carries its statement.

ghost use Rattle.bootstrap_regs.specs.Laws.{AddressesAreStandard, TableIsDefined, TableIsInOrder, TextsAreFilled, EachWordIsReadable, WritesHaveCauses};

/// The constants of `addresses` are the numbers of the standard and of the definitions.
pub fn addresses_are_the_standards()
    ensures { AddressesAreStandard }
{}

/// The table of the code is the defined one: the same registers with the same first values and the same
/// values that may be written.
pub fn table_is_the_defined_one()
    ensures { TableIsDefined }
{}

/// The registers of the table lie by rising address, without overlap and within the register space.
pub fn table_is_in_order()
    ensures { TableIsInOrder }
{}

/// The texts of the table are ASCII characters, filled up with zero bytes.
pub fn texts_are_filled()
    ensures { TextsAreFilled }
{}

/// Each word of the register space can be read.
pub fn each_word_is_readable()
    ensures { EachWordIsReadable }
{}

/// A write is refused with a status exactly where that status has its cause, and done exactly where
/// the value may be written.
pub fn writes_have_causes()
    ensures { WritesHaveCauses }
{}

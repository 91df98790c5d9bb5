//! What the definitions promise: the functions do nothing, and their contracts are laws.

ghost use Rattle.std.specs.Prelude.{ℕ, List, Option};
ghost use Rattle.gvcp_wire.specs.Messages.{PlainCommand};
ghost use Rattle.client_machine.specs.Machine.{Client};
ghost use Rattle.gev_links.specs.Links.{Address, Answer};
ghost use Rattle.gev_control.specs.OrderTurns.{Progress, OrderTurned};
ghost use Rattle.gev_control.specs.OrderLaws.{StopsAtTheLast, WaitsForEach, EndsAsTold, SubmitsInOrder, TellsTheLast, AreTheClients};
ghost use Rattle.gev_control.specs.ThroughLaws.{ThroughInOrder};
ghost use Rattle.gev_control.specs.Telling.{TellsTheHeartbeat};
ghost use Rattle.gev_control.specs.SetupTurns.{SetUp, SetupTurned};
ghost use Rattle.gev_control.specs.SetupLaws.{StopsWhenAcknowledged, EndsAsTheClient, IsTheClients};

/// What is submitted while a list is carried out are its first commands, in order, each once.
pub fn orders_are_submitted_in_order()
    ensures { (orders : List PlainCommand) (s : Client) (ts : List OrderTurned) → SubmitsInOrder orders s ts }
{}

/// A command of a list is submitted once all before it were acknowledged.
pub fn each_order_waits_for_the_one_before()
    ensures { (orders : List PlainCommand) (s : Client) (ts : List OrderTurned) → WaitsForEach orders s ts }
{}

/// A list ends with Stopped exactly where all its commands were acknowledged, and the one that was
/// outstanding before.
pub fn a_list_stops_at_its_last_acknowledge()
    ensures { (orders : List PlainCommand) (s : Client) (before : List OrderTurned) (last : OrderTurned) → StopsAtTheLast orders s before last }
{}

/// What is submitted while a list goes on behind refusals are its first commands, in order, each once.
pub fn orders_that_go_through_are_in_order()
    ensures { ThroughInOrder }
{}

/// A list ends with NoAnswer or Refused exactly where its client tells so, and never with Spent.
pub fn lists_end_as_their_client()
    ensures { (orders : List PlainCommand) (s : Progress) (t : OrderTurned) → EndsAsTold orders s t }
{}

/// A list that ends with Stopped leaves its client with the body of the last acknowledge.
pub fn the_last_read_is_told()
    ensures { (orders : List PlainCommand) (s : Progress) (t : OrderTurned) → TellsTheLast orders s t }
{}

/// A heartbeat that was acknowledged in a turn of the reader leaves its client with that acknowledge's body.
pub fn heartbeats_are_told()
    ensures { (s : Client) (heard : Option Answer) (moment : ℕ) → TellsTheHeartbeat s heard moment }
{}

/// What the turns of a list make of the client is what the client's machine makes of their events.
pub fn turns_of_a_list_are_steps_of_the_client()
    ensures { AreTheClients }
{}

/// The setup ends with Stopped exactly where all its commands were acknowledged.
pub fn the_setup_stops_when_acknowledged()
    ensures { (limit : ℕ) (stream : Address) (before : List SetupTurned) (last : SetupTurned) → StopsWhenAcknowledged limit stream before last }
{}

/// The setup ends with NoAnswer or Refused exactly where its client tells so, and never with Spent.
pub fn the_setup_ends_as_its_client()
    ensures { (stream : Address) (s : SetUp) (t : SetupTurned) → EndsAsTheClient stream s t }
{}

/// What a turn makes of the client is what the client's machine makes of the turn's events.
pub fn turns_are_steps_of_the_client()
    ensures { IsTheClients }
{}

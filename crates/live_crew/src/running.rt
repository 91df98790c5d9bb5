//! Workers as threads, each with a pass of its own.

ghost use Rattle.std.specs.Prelude.{◌≡◌};
ghost use Rattle.buffer_words.specs.Boards.{board_id};
ghost use Rattle.buffer_words.specs.Passes.{IsEmptyHanded, SameHands};
ghost use Rattle.live_crew.specs.Homes.{Joins};
ghost use Rattle.live_crew.specs.Crews.{IsNewPass, ComesBack, RanTwo, RanThree};

use crate::worked::Worked;
use buffer_words::{Board, Pass};
use std::thread;
use std::thread::Threads;

// A worker's pass is joined.
fn take_back(board: &Board, pass: &mut Pass, back: Pass)
    requires table { pass.old.table ≡ board_id board.now }
    requires same { back.table ≡ board_id board.now }
    requires empty { IsEmptyHanded back }
    ensures joins { Joins pass.old back pass.new }
    ensures table { pass.new.table ≡ pass.old.table }
    ensures hands { SameHands pass.old pass.new }
{
    board.join(pass, back);
}

// Two workers with their passes. Where no thread can be made the second works first.
fn work_two<
    R: Threads,
    A: Send,
    B,
    F: FnOnce(Pass) -> Worked<A> + Send,
    H: FnOnce(Pass) -> Worked<B>,
>(rt: &R, one: Pass, two: Pass, first: F, second: H) -> (Worked<A>, Worked<B>)
    requires first { F.pre first one }
    requires second { H.pre second two }
    ensures first { F.post first one result.0 }
    ensures second { H.post second two result.1 }
{
    thread::join(
        rt,
        move || -> Worked<A>
            requires { F.pre first one }
            ensures { F.post first one result }
        { first(one) },
        move || -> Worked<B>
            requires { H.pre second two }
            ensures { H.post second two result }
        { second(two) },
    )
}

// Three workers with their passes. Where no thread can be made the second works first, then the third, and then the
// first.
fn work_three<
    R: Threads,
    A: Send,
    B,
    D: Send,
    F: FnOnce(Pass) -> Worked<A> + Send,
    H: FnOnce(Pass) -> Worked<B>,
    K: FnOnce(Pass) -> Worked<D> + Send,
>(
    rt: &R,
    one: Pass,
    two: Pass,
    three: Pass,
    first: F,
    second: H,
    third: K,
) -> (Worked<A>, (Worked<D>, Worked<B>))
    requires first { F.pre first one }
    requires second { H.pre second two }
    requires third { K.pre third three }
    ensures first { F.post first one result.0 }
    ensures second { H.post second two result.1.1 }
    ensures third { K.post third three result.1.0 }
{
    thread::join(
        rt,
        move || -> Worked<A>
            requires { F.pre first one }
            ensures { F.post first one result }
        { first(one) },
        move || -> (Worked<D>, Worked<B>)
            requires { H.pre second two × K.pre third three }
            ensures { H.post second two result.1 × K.post third three result.0 }
        { work_two(rt, three, two, third, second) },
    )
}

/// Runs two workers at the same time, each with a new pass, and takes the passes back, the first one's first. Where no
/// thread can be made the second works first, and then the first.
pub fn run_two<
    R: Threads,
    A: Send,
    B,
    F: FnOnce(Pass) -> Worked<A> + Send,
    H: FnOnce(Pass) -> Worked<B>,
>(rt: &R, board: &Board, pass: &mut Pass, first: F, second: H) -> (A, B)
    requires table { pass.old.table ≡ board_id board.now }
    requires first { (given : _) → IsNewPass (board_id board.now) given → F.pre first given }
    requires first_back { (given : _) (worked : _) → IsNewPass (board_id board.now) given → F.post first given worked → ComesBack given worked.pass }
    requires second { (given : _) → IsNewPass (board_id board.now) given → H.pre second given }
    requires second_back { (given : _) (worked : _) → IsNewPass (board_id board.now) given → H.post second given worked → ComesBack given worked.pass }
    ensures ran { RanTwo (λ given back. F.post first given (record { pass = back; done = result.0 })) (λ given back. H.post second given (record { pass = back; done = result.1 })) pass.old pass.new }
    ensures table { pass.new.table ≡ pass.old.table }
    ensures hands { SameHands pass.old pass.new }
{
    pass.witness();
    let one = board.split(pass);
    let two = board.split(pass);
    let (first_worked, second_worked) = work_two(rt, one, two, first, second);
    let Worked {
        pass: one_back,
        done: first_done,
    } = first_worked;
    let Worked {
        pass: two_back,
        done: second_done,
    } = second_worked;
    take_back(board, pass, one_back);
    take_back(board, pass, two_back);
    pass.witness();
    (first_done, second_done)
}

/// Runs three workers at the same time, each with a new pass, and takes the passes back in their order. Where no thread
/// can be made the second works first, then the third, and then the first.
pub fn run_three<
    R: Threads,
    A: Send,
    B,
    D: Send,
    F: FnOnce(Pass) -> Worked<A> + Send,
    H: FnOnce(Pass) -> Worked<B>,
    K: FnOnce(Pass) -> Worked<D> + Send,
>(rt: &R, board: &Board, pass: &mut Pass, first: F, second: H, third: K) -> (A, B, D)
    requires table { pass.old.table ≡ board_id board.now }
    requires first { (given : _) → IsNewPass (board_id board.now) given → F.pre first given }
    requires first_back { (given : _) (worked : _) → IsNewPass (board_id board.now) given → F.post first given worked → ComesBack given worked.pass }
    requires second { (given : _) → IsNewPass (board_id board.now) given → H.pre second given }
    requires second_back { (given : _) (worked : _) → IsNewPass (board_id board.now) given → H.post second given worked → ComesBack given worked.pass }
    requires third { (given : _) → IsNewPass (board_id board.now) given → K.pre third given }
    requires third_back { (given : _) (worked : _) → IsNewPass (board_id board.now) given → K.post third given worked → ComesBack given worked.pass }
    ensures ran { RanThree (λ given back. F.post first given (record { pass = back; done = result.0 })) (λ given back. H.post second given (record { pass = back; done = result.1 }))
        (λ given back. K.post third given (record { pass = back; done = result.2 })) pass.old pass.new }
    ensures table { pass.new.table ≡ pass.old.table }
    ensures hands { SameHands pass.old pass.new }
{
    pass.witness();
    let one = board.split(pass);
    let two = board.split(pass);
    let three = board.split(pass);
    let (first_worked, (third_worked, second_worked)) = work_three(
        rt, one, two, three, first, second, third,
    );
    let Worked {
        pass: one_back,
        done: first_done,
    } = first_worked;
    let Worked {
        pass: two_back,
        done: second_done,
    } = second_worked;
    let Worked {
        pass: three_back,
        done: third_done,
    } = third_worked;
    take_back(board, pass, one_back);
    take_back(board, pass, two_back);
    take_back(board, pass, three_back);
    pass.witness();
    (first_done, second_done, third_done)
}

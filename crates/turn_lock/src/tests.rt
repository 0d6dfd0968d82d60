use super::*;
use cv_store::HasHistory;
use std::test::Fail;

/// A number, whose history has no entries.
#[derive(Drop)]
struct Number {
    value: u64,
}

impl HasHistory for Number {
    ghost use Rattle.std.specs.Prelude.{[]};

    ghost program = { λ _. record { tables = []; functions = [] } };

    ghost history = { λ _. [] };

    fn history_len(&self) -> u64 {
        0
    }
}

#[test]
fn what_is_written_in_a_turn_stays(rt: HostRuntime) -> Result<(), Fail> {
    let Ok((turn, seat)) = Turn::new(rt.alloc(), Number { value: 1 }) else {
        return Err(Fail::from("no memory"));
    };
    let mut held = seat.take(&rt, &turn);
    assert_eq!(rt; held.state().value, 1);
    held.state().value = 2;
    let seat = held.give(&turn);
    let Some(number) = turn.close(seat) else {
        return Err(Fail::from("not given back"));
    };
    assert_eq!(rt; number.value, 2);
    Ok(())
}

#[test]
fn two_seats_take_turns(rt: HostRuntime) -> Result<(), Fail> {
    let Ok((turn, seat)) = Turn::new(rt.alloc(), Number { value: 1 }) else {
        return Err(Fail::from("no memory"));
    };
    let (first, second) = seat.split(&turn);
    let mut held = first.take(&rt, &turn);
    held.state().value = 3;
    let first = held.give(&turn);
    let mut held = second.take(&rt, &turn);
    assert_eq!(rt; held.state().value, 3);
    held.state().value = 4;
    let second = held.give(&turn);
    let seat = TurnSeat::join(first, second, &turn);
    let Some(number) = turn.close(seat) else {
        return Err(Fail::from("not given back"));
    };
    assert_eq!(rt; number.value, 4);
    Ok(())
}

#[test]
fn a_turn_that_is_lost_is_no_more_closed(rt: HostRuntime) -> Result<(), Fail> {
    let Ok((turn, seat)) = Turn::new(rt.alloc(), Number { value: 1 }) else {
        return Err(Fail::from("no memory"));
    };
    let (first, second) = seat.split(&turn);
    drop(first.take(&rt, &turn));
    assert!(rt; turn.close(second).is_none());
    Ok(())
}

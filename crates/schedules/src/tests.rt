use crate::{Choice, ScheduleStop, schedule_from};
use std::alloc::Global;
use std::test::Fail;

fn stop_of(alloc: Global, text: &[u8]) -> Option<ScheduleStop> {
    schedule_from(alloc, text).err()
}

#[test]
fn a_line_is_a_choice_with_its_values(rt: HostRuntime) -> Result<(), Fail> {
    let text = b"0 0 0\n4294967295 7 1 -2 3\n1 0 -9223372036854775808 18446744073709551615\n2 0\n";
    let choices = schedule_from(rt.alloc(), text)?;
    let wanted = [
        Choice {
            thread: 0,
            pair: 0,
            values: [0, 0, 0],
            count: 1,
        },
        Choice {
            thread: 4_294_967_295,
            pair: 7,
            values: [1, -2, 3],
            count: 3,
        },
        Choice {
            thread: 1,
            pair: 0,
            values: [-(1 << 63), (1 << 64) - 1, 0],
            count: 2,
        },
        Choice {
            thread: 2,
            pair: 0,
            values: [0, 0, 0],
            count: 0,
        },
    ];
    assert_eq!(rt; choices.as_slice(), wanted.as_slice());
    Ok(())
}

#[test]
fn no_bytes_are_no_choices(rt: HostRuntime) -> Result<(), Fail> {
    let choices = schedule_from(rt.alloc(), b"")?;
    assert_eq!(rt; choices.len(), 0);
    Ok(())
}

#[test]
fn minus_zero_is_the_value_0(rt: HostRuntime) -> Result<(), Fail> {
    let choices = schedule_from(rt.alloc(), b"0 0 -0\n")?;
    let wanted = [Choice {
        thread: 0,
        pair: 0,
        values: [0, 0, 0],
        count: 1,
    }];
    assert_eq!(rt; choices.as_slice(), wanted.as_slice());
    Ok(())
}

#[test]
fn the_first_line_outside_the_form_is_told(rt: HostRuntime) {
    let rows: [(&[u8], u32); 26] = [
        (b"\n", 1),
        (b"0\n", 1),
        (b"0 \n", 1),
        (b" 0 0\n", 1),
        (b"0 0 \n", 1),
        (b"0  0\n", 1),
        (b"0 0  0\n", 1),
        (b"0\t0\n", 1),
        (b"0 0\r\n", 1),
        (b"-0 0\n", 1),
        (b"0 -0\n", 1),
        (b"00 0\n", 1),
        (b"0 01\n", 1),
        (b"0 0 01\n", 1),
        (b"0 0 -01\n", 1),
        (b"0 0 -\n", 1),
        (b"0 0 --1\n", 1),
        (b"0 0 +1\n", 1),
        (b"0 0 1 2 3 4\n", 1),
        (b"4294967296 0\n", 1),
        (b"0 4294967296\n", 1),
        (b"0 0 18446744073709551616\n", 1),
        (b"0 0 -9223372036854775809\n", 1),
        (b"0 0", 1),
        (b"0 0\n0 0\n1 x\n2 y\n", 3),
        (b"0 0\n\n0 0\n", 2),
    ];
    for (text, line) in rows {
        assert_eq!(rt; stop_of(rt.alloc(), text), Some(ScheduleStop::Form(line)));
    }
}

#[test]
fn ten_thousand_lines_are_a_schedule_and_one_more_is_too_long(rt: HostRuntime) -> Result<(), Fail> {
    let mut text = Vec::new(rt.alloc());
    for _ in 0..10_000 {
        text.extend_from_slice(b"0 0\n")?;
    }
    assert_eq!(rt; schedule_from(rt.alloc(), text.as_slice())?.len(), 10_000);
    text.push(b'x')?;
    assert_eq!(rt;
        stop_of(rt.alloc(), text.as_slice()),
        Some(ScheduleStop::TooLong)
    );
    Ok(())
}

#[test]
fn one_byte_above_the_limit_is_too_long(rt: HostRuntime) -> Result<(), Fail> {
    let mut text = Vec::new(rt.alloc());
    for _ in 0..262_144 {
        text.push(b'0')?;
    }
    assert_eq!(rt;
        stop_of(rt.alloc(), text.as_slice()),
        Some(ScheduleStop::Form(1))
    );
    text.push(b'0')?;
    assert_eq!(rt;
        stop_of(rt.alloc(), text.as_slice()),
        Some(ScheduleStop::TooLong)
    );
    Ok(())
}

// When a file that others write is read: rows of looks.
use crate::looks::{Look, Looks};
use crate::tries::{BEHIND, First, Next, has_second, next_of};
use av_base::Version;
use std::test::Fail;
use std::time::Duration;

// A look at a file of this number and length, changed at this time. No file has the number 0.
fn look(row: (u64, u64, i64, i64)) -> Option<Look> {
    let (number, length, seconds, nanoseconds) = row;
    if number == 0 {
        return None;
    }
    Some(Look {
        device: 1,
        number,
        length,
        written: seconds
            .saturating_mul(1_000_000_000)
            .saturating_add(nanoseconds),
        changed: seconds,
    })
}

#[test]
fn a_file_that_was_written_anew_in_its_old_length_and_time_is_read(
    rt: HostRuntime,
) -> Result<(), Fail> {
    let before = look((1, 34, 100, 5));
    let now = match before {
        Some(before) => Some(Look {
            changed: 101,
            ..before
        }),
        None => None,
    };
    let mut looks = Looks::new(before);
    assert!(&rt; !looks.settles(before) && !looks.settles(now) && looks.settles(now));
    Ok(())
}

#[test]
fn a_file_is_read_where_two_looks_agree_and_it_is_not_what_was_taken(
    rt: HostRuntime,
) -> Result<(), Fail> {
    let rows = [
        ((1, 34, 100, 0), false),
        ((1, 34, 100, 0), false),
        ((2, 40, 101, 5), false),
        ((2, 40, 101, 5), true),
        ((2, 40, 101, 5), false),
        ((0, 0, 0, 0), false),
        ((0, 0, 0, 0), false),
        ((2, 40, 101, 5), false),
        ((2, 40, 101, 5), false),
        ((2, 41, 102, 0), false),
        ((2, 42, 102, 1), false),
        ((2, 43, 102, 2), false),
        ((2, 43, 102, 2), true),
        ((3, 43, 102, 2), false),
        ((1, 34, 100, 0), false),
        ((1, 34, 100, 0), true),
    ];
    let mut looks = Looks::new(look((1, 34, 100, 0)));
    for (place, (row, is_read)) in rows.iter().enumerate() {
        let now = look(*row);
        assert!(&rt; looks.settles(now) == *is_read, "look {place}");
        if *is_read {
            assert!(&rt; looks.takes(now), "look {place}");
        }
    }
    Ok(())
}

#[test]
fn a_file_that_changes_while_it_is_read_is_not_taken_and_is_read_again(
    rt: HostRuntime,
) -> Result<(), Fail> {
    let first = look((1, 34, 100, 0));
    let other = look((2, 40, 101, 0));
    let mut looks = Looks::new(None);
    assert!(&rt; !looks.settles(first) && looks.settles(first));
    assert!(&rt; !looks.takes(other));
    assert!(&rt; !looks.settles(first) && looks.settles(first) && looks.takes(first));
    assert!(&rt; !looks.settles(first));
    assert!(&rt; !looks.settles(None) && !looks.settles(None));
    Ok(())
}

#[test]
fn a_second_connection_is_tried_each_second_once_the_service_has_greeted(
    rt: HostRuntime,
) -> Result<(), Fail> {
    let rows: [(First, Option<u64>, Next); 7] = [
        (First::Silent, None, Next::Waits),
        (First::Silent, Some(5_000_000_000), Next::Waits),
        (First::Greeted, None, Next::Tries),
        (First::Greeted, Some(999_999_999), Next::Waits),
        (First::Greeted, Some(1_000_000_000), Next::Tries),
        (First::Gone, None, Next::Ends),
        (First::Gone, Some(1_000_000_000), Next::Ends),
    ];
    for (first, nanoseconds, next) in rows {
        let tried = nanoseconds.map(Duration::from_nanos);
        assert_eq!(rt; next_of(first, tried), next);
    }
    Ok(())
}

#[test]
fn the_path_of_a_second_socket_has_107_bytes_at_most(rt: HostRuntime) -> Result<(), Fail> {
    assert_eq!(rt; BEHIND, ".parts");
    assert!(rt; has_second(107 - BEHIND.len()) && !has_second(108 - BEHIND.len()));
    Ok(())
}

//! Tests of calls at the elements of a list, by threads.
ghost use Rattle.std.specs.Prelude.{◌<◌};

use std::test::Fail;
use std::thread::Threads;
use thread_share::for_each_mut;

// Adds its number to what stands at each place, in so many threads at most.
fn add_numbers<R: Threads + Sync>(rt: &R, places: &mut [usize], threads: usize)
    requires { 0 < threads }
{
    for_each_mut(
        rt,
        places,
        threads,
        &|number, place: &mut usize| {
            *place = place.wrapping_add(number);
        },
    );
}

#[test]
fn each_place_is_called_at_once_with_its_number(rt: HostRuntime) -> Result<(), Fail> {
    let wanted = [
        100, 101, 102, 103, 104, 105, 106, 107, 108, 109, 110, 111, 112, 113, 114, 115, 116, 117,
        118, 119,
    ];
    for threads in [1, 2, 3, 7, 8, 9, 64] {
        for count in [0, 1, 5, 20] {
            let mut places = [100; 20];
            add_numbers(&rt, &mut places[..count], threads);
            assert_eq!(rt; &places[..count], &wanted[..count]);
            assert_eq!(rt; &places[count..], &[100; 20][count..]);
        }
    }
    Ok(())
}

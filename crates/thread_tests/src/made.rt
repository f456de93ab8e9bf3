//! Tests of what is made for numbers, by threads.

use sgl_values::Memory;
use std::alloc::Global;
use std::test::Fail;
use std::thread::Threads;
use thread_share::make_each;

// Three times each of the first numbers, where none of them is the one for which there is no memory.
fn triples<R: Threads + Sync>(
    rt: &R,
    alloc: Global,
    count: usize,
    missing: usize,
) -> Result<Vec<usize>, Memory> {
    make_each(
        rt,
        alloc,
        count,
        &|number: usize| -> Result<usize, Memory> {
            if number == missing {
                Err(Memory)
            } else {
                Ok(number.wrapping_mul(3))
            }
        },
    )
}

#[test]
fn each_number_has_what_is_made_for_it(rt: HostRuntime) -> Result<(), Fail> {
    let wanted = [0, 3, 6, 9, 12, 15, 18, 21, 24];
    for count in [0, 1, 2, 4, 9] {
        let made = triples(&rt, rt.alloc(), count, 9)?;
        assert_eq!(rt; made.as_slice(), &wanted[..count]);
    }
    Ok(())
}

#[test]
fn nothing_is_made_where_memory_is_wanting_for_a_number(rt: HostRuntime) -> Result<(), Fail> {
    for count in [1, 2, 4, 9] {
        for missing in 0..count {
            assert_eq!(rt; triples(&rt, rt.alloc(), count, missing), Err(Memory));
        }
    }
    Ok(())
}

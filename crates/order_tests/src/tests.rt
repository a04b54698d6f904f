ghost use Rattle.std.specs.Prelude.{◌<◌};
ghost use Rattle.order.specs.Laws.{Lawful};
ghost use Rattle.order_tests.specs.Numbered.{orders_three};

use crate::{ByThree, ByTwo};
use order::Heap;
use std::process::Abort;
use std::test::Fail;

const LOWEST: ByTwo = ByTwo {
    value: 0,
    number: 0,
};

const HIGHEST: ByThree = ByThree { f: 9, h: 9, row: 9 };

fn next(seed: u64) -> u64 {
    seed.wrapping_mul(6364136223846793005)
        .wrapping_add(1442695040888963407)
}

// An entry with few values, so that some are tied in part and some are equal. Fields and remainders are each type's own.
fn some_two(seed: u64) -> ByTwo {
    ByTwo {
        value: (seed >> 40) % 5,
        number: ((seed >> 50) % 3) as u32,
    }
}

fn some_three(seed: u64) -> ByThree {
    ByThree {
        f: (seed >> 40) % 3,
        h: (seed >> 45) % 3,
        row: ((seed >> 50) % 3) as u32,
    }
}

#[test]
fn twos_come_in_order(rt: HostRuntime) -> Result<(), Fail> {
    let mut seed = 7;
    let mut all = [LOWEST; 20];
    let mut room = [LOWEST; 20];
    let mut heap = Heap::new(&mut room);
    for x in all.iter_mut() {
        seed = next(seed);
        *x = some_two(seed);
        assert!(rt; heap.push(*x).is_ok());
    }
    all.sort_unstable();
    for x in all {
        assert!(rt; heap.first() == Some(x));
        assert!(rt; heap.pop() == Some(x));
    }
    assert!(rt; heap.pop() == None);
    Ok(())
}

#[test]
fn full_refuses(rt: HostRuntime) {
    let mut room = [LOWEST; 2];
    let mut heap = Heap::new(&mut room);
    assert!(rt; heap.is_empty());
    assert!(rt; heap.push(some_two(1)).is_ok());
    assert!(rt; heap.push(some_two(2)).is_ok());
    assert!(rt; heap.push(LOWEST) == Err(LOWEST));
    assert!(rt; heap.len() == 2);
}

// A heap and a sorted copy of what it holds, filled up with the highest entry: an array, which is sorted without asking for memory.
fn pushes(
    rt: &impl Abort,
    heap: &mut Heap<ByThree>,
    copy: &mut [ByThree; 8],
    x: ByThree,
) -> Result<(), Fail>
    requires { Lawful orders_three heap.old }
    ensures { Lawful orders_three heap.new }
{
    let room = heap.len() < 8;
    assert!(rt; heap.push(x).is_ok() == room);
    if room {
        copy[7] = x;
    }
    copy.sort_unstable();
    Ok(())
}

fn pops(rt: &impl Abort, heap: &mut Heap<ByThree>, copy: &mut [ByThree; 8]) -> Result<(), Fail>
    requires { Lawful orders_three heap.old }
    ensures { Lawful orders_three heap.new }
{
    let want = if heap.is_empty() { None } else { Some(copy[0]) };
    assert!(rt; heap.first() == want);
    assert!(rt; heap.pop() == want);
    copy[0] = HIGHEST;
    copy.sort_unstable();
    Ok(())
}

fn lowers(
    rt: &impl Abort,
    heap: &mut Heap<ByThree>,
    copy: &mut [ByThree; 8],
    i: usize,
    x: ByThree,
) -> Result<(), Fail>
    requires within { i < 8 }
    requires lawful { Lawful orders_three heap.old }
    ensures { Lawful orders_three heap.new }
{
    let old = copy[i];
    let may = i < heap.len() && x <= old;
    assert!(rt; heap.lower(old, x) == may);
    if may {
        copy[i] = x;
    }
    copy.sort_unstable();
    Ok(())
}

fn turns(
    rt: &impl Abort,
    heap: &mut Heap<ByThree>,
    copy: &mut [ByThree; 8],
    seed: u64,
) -> Result<(), Fail>
    requires { Lawful orders_three heap.old }
    ensures { Lawful orders_three heap.new }
{
    let x = some_three(seed);
    match (seed >> 60) % 4 {
        0 => pops(rt, heap, copy),
        1 => lowers(rt, heap, copy, ((seed >> 30) % 8) as usize, x),
        _ => pushes(rt, heap, copy, x),
    }
}

#[test]
fn goes_as_a_sorted_copy(rt: HostRuntime) -> Result<(), Fail> {
    let mut seed = 1;
    let mut copy = [HIGHEST; 8];
    let mut room = [HIGHEST; 8];
    let mut heap = Heap::new(&mut room);
    for _ in 0..200 {
        seed = next(seed);
        turns(&rt, &mut heap, &mut copy, seed)?;
    }
    Ok(())
}

#[test]
fn lower_refuses(rt: HostRuntime) {
    let a = ByTwo {
        value: 2,
        number: 1,
    };
    let above = ByTwo {
        value: 2,
        number: 2,
    };
    let mut room = [LOWEST; 3];
    let mut heap = Heap::new(&mut room);
    assert!(rt; heap.push(a).is_ok());
    assert!(rt; !heap.lower(above, a));
    assert!(rt; !heap.lower(LOWEST, LOWEST));
    assert!(rt; !heap.lower(a, above));
    assert!(rt; heap.lower(a, LOWEST));
    assert!(rt; heap.pop() == Some(LOWEST));
}

#[test]
fn what_stands_past_is_kept(rt: HostRuntime) {
    let mut room = [5, 6, 7, 8];
    let mut heap = Heap::new(&mut room);
    assert!(rt; heap.push(3).is_ok());
    assert!(rt; heap.push(2).is_ok());
    assert!(rt; heap.pop() == Some(2));
    assert!(rt; room == [3, 2, 7, 8]);
}

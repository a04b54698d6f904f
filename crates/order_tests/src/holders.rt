// Structs of a type parameter that hold a heap: one of any entry, of entries turned round, and of entries with a number beside.
ghost use Rattle.order.specs.Laws.{Lawful};
ghost use Rattle.std.specs.Ordering.{ordering_then, nat_cmp};

use order::Heap;
use std::cmp::Reverse;
use std::process::Abort;
use std::test::Fail;

#[derive(Drop)]
struct Plain<'a, T> {
    heap: Heap<'a, T>,
}

#[derive(Drop)]
struct Turned<'a, T: Ord + Copy> {
    heap: Heap<'a, Reverse<T>>,
}

#[derive(Drop)]
struct Numbered<'a, T: Ord + Copy> {
    heap: Heap<'a, (T, u32)>,
}

impl<'a, T: Ord + Copy> Plain<'a, T> {
    fn put(&mut self, x: T) -> bool
        requires { Lawful T.cmp self.old.heap }
        ensures { Lawful T.cmp self.new.heap }
    {
        self.heap.push(x).is_ok()
    }
}

impl<'a, T: Ord + Copy> Turned<'a, T> {
    fn put(&mut self, x: T) -> bool
        requires { Lawful (λ a b. T.cmp b.0 a.0) self.old.heap }
        ensures { Lawful (λ a b. T.cmp b.0 a.0) self.new.heap }
    {
        self.heap.push(Reverse(x)).is_ok()
    }
}

impl<'a, T: Ord + Copy> Numbered<'a, T> {
    fn put(&mut self, x: T, number: u32) -> bool
        requires { Lawful (λ a b. ordering_then (T.cmp a.0 b.0) (nat_cmp a.1 b.1)) self.old.heap }
        ensures { Lawful (λ a b. ordering_then (T.cmp a.0 b.0) (nat_cmp a.1 b.1)) self.new.heap }
    {
        self.heap.push((x, number)).is_ok()
    }
}

#[test]
fn structs_of_a_type_parameter_hold_heaps(rt: HostRuntime) -> Result<(), Fail> {
    let mut room = [0u64; 2];
    let mut plain = Plain {
        heap: Heap::new(&mut room),
    };
    assert!(rt; plain.put(3));
    assert!(rt; plain.put(2));
    assert!(rt; !plain.put(1));
    assert!(rt; plain.heap.first() == Some(2));
    let mut room = [Reverse(0u64); 2];
    let mut turned = Turned {
        heap: Heap::new(&mut room),
    };
    assert!(rt; turned.put(2));
    assert!(rt; turned.put(3));
    assert!(rt; !turned.put(4));
    assert!(rt; turned.heap.first() == Some(Reverse(3)));
    let mut room = [(0u64, 0); 2];
    let mut numbered = Numbered {
        heap: Heap::new(&mut room),
    };
    assert!(rt; numbered.put(5, 2));
    assert!(rt; numbered.put(5, 1));
    assert!(rt; !numbered.put(0, 0));
    assert!(rt; numbered.heap.first() == Some((5, 1)));
    Ok(())
}

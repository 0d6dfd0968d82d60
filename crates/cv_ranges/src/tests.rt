ghost use Rattle.std.specs.Prelude.{◌≡◌, ◌+◌, ◌*◌, ◌%◌, ◌^◌, [], IfOk, OnOk};
ghost use Rattle.cv_ranges.specs.Held.{HasRead, KeepsOthers};

use crate::{Hit, RangeNodes, hit_touched, put, ranges_tell, take_out};
use cv_keys::{Interval, Key, key_of};
use cv_reads::{Mark, ReadSet};
use cv_values::{Memory, Val};
use range_tree::RangeTree;
use std::alloc::Global;
use std::test::Fail;

// The owners that are hit, as the digits of a number.
#[derive(Drop)]
struct Digits {
    number: u64,
}

impl Hit for Digits {
    ghost after_hit = { λ d owner. record { number = (d.number * 10 % 2 ^ 64 + owner) % 2 ^ 64 } };

    fn hit(&mut self, owner: u64) {
        self.number = self.number.wrapping_mul(10).wrapping_add(owner);
    }
}

fn key(alloc: Global, n: i64) -> Result<Key, Memory> {
    key_of(alloc, &Val::Int(n))
}

// The integers of each pair from the first one up to and without the second, in index 2 of table 0.
fn reads(alloc: Global, ranges: &[(i64, i64)]) -> Result<ReadSet, Memory> {
    let mut reads = ReadSet::new(alloc);
    for (lo, hi) in ranges {
        reads.add(Interval {
            table: 0,
            index: 2,
            lo: key(alloc, *lo)?,
            hi: key(alloc, *hi)?,
        })?;
    }
    Ok(reads)
}

fn mark(alloc: Global, n: i64) -> Result<Mark, Memory> {
    Ok(Mark {
        ts: 1,
        write: 0,
        fresh: true,
        table: 0,
        index: 2,
        key: key(alloc, n)?,
    })
}

// The owners that marks at these integers hit, in order.
fn hit_at(alloc: Global, tree: &RangeTree, numbers: &[i64]) -> Result<u64, Memory> {
    let mut marks = Vec::new(alloc);
    for n in numbers {
        marks.push(mark(alloc, *n)?)?;
    }
    let mut digits = Digits { number: 0 };
    hit_touched(tree, marks.as_slice(), &mut digits);
    Ok(digits.number)
}

// Puts what an owner has read into a tree that has none of it.
fn give(alloc: Global, tree: &mut RangeTree, reads: &ReadSet, owner: u64) -> Result<(), Memory>
    requires { HasRead tree.old owner [] }
    ensures has { OnOk result (HasRead tree.new owner reads.now) }
    ensures others { OnOk result (KeepsOthers owner tree.old tree.new) }
{
    let nodes = RangeNodes::of(alloc, tree, reads, owner)?;
    put(tree, nodes, reads, owner);
    Ok(())
}

#[test]
fn equal_ranges_stand_once(rt: HostRuntime) -> Result<(), Fail> {
    let alloc = rt.alloc();
    ranges_tell();
    let mut tree = RangeTree::new();
    let first = reads(alloc, &[(10, 20), (15, 30), (10, 20)])?;
    give(alloc, &mut tree, &first, 1)?;
    assert!(rt; tree.len() == 2);
    assert!(rt; hit_at(alloc, &tree, &[17])? == 11);
    take_out(&mut tree, &first, 1);
    assert!(rt; tree.len() == 0);
    Ok(())
}

// What owners 1 and 2 have read, in a tree.
fn two_owners(alloc: Global, first: &ReadSet, second: &ReadSet) -> Result<RangeTree, Memory>
    ensures { IfOk result (λ tree. HasRead tree 1 first.now) }
{
    ranges_tell();
    let mut tree = RangeTree::new();
    give(alloc, &mut tree, first, 1)?;
    give(alloc, &mut tree, second, 2)?;
    Ok(tree)
}

#[test]
fn marks_hit_the_owners_of_their_ranges(rt: HostRuntime) -> Result<(), Fail> {
    let alloc = rt.alloc();
    let first = reads(alloc, &[(10, 20), (15, 30)])?;
    let second = reads(alloc, &[(20, 40)])?;
    let tree = two_owners(alloc, &first, &second)?;
    assert!(rt; hit_at(alloc, &tree, &[9, 40])? == 0);
    assert!(rt; hit_at(alloc, &tree, &[12])? == 1);
    assert!(rt; hit_at(alloc, &tree, &[20])? == 12);
    assert!(rt; hit_at(alloc, &tree, &[35, 12, 17])? == 2111);
    Ok(())
}

#[test]
fn taken_out_owners_are_not_hit(rt: HostRuntime) -> Result<(), Fail> {
    let alloc = rt.alloc();
    let first = reads(alloc, &[(10, 20), (15, 30)])?;
    let second = reads(alloc, &[(20, 40)])?;
    let mut tree = two_owners(alloc, &first, &second)?;
    take_out(&mut tree, &first, 1);
    assert!(rt; tree.len() == 1);
    assert!(rt; hit_at(alloc, &tree, &[12, 25])? == 2);
    Ok(())
}

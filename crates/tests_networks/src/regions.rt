//! Words of a region that are handed out, given back and handed out anew, and those that a circulation takes of it.
ghost use Rattle.std.specs.Prelude.{◌≡◌, ◌≤◌};
ghost use Rattle.word_region.specs.Words.{IsUsed};

use crate::networks::are_ends;
use circulation::{Circulation, Ends, words};
use std::alloc::{AllocError, Global};
use std::process::Abort;
use std::test::Fail;
use word_region::{Full, Place, Region};

/// Takes words that are free.
fn take<R: Abort>(rt: &R, region: &mut Region, len: usize) -> Place
    ensures used { IsUsed result region.new }
    ensures len { result.len ≡ len }
    ensures more { region.old.used ≤ region.new.used }
{
    region.take(len).expect(rt, "the words are free")
}

/// Compares a place.
fn compare_place<R: Abort>(rt: &R, place: Place, expected: Place) {
    assert_eq!(rt; place, expected);
}

/// Asks for more words than are free.
fn compare_full<R: Abort>(rt: &R, region: &mut Region, len: usize)
    ensures { region.old.used ≤ region.new.used }
{
    assert_eq!(rt; region.take(len), Err(Full));
}

/// Compares how many words are free.
fn compare_free<R: Abort>(rt: &R, region: &Region, free: usize) {
    assert_eq!(rt; region.free(), free);
}

/// Compares the words of a place.
fn compare_words<R: Abort>(rt: &R, region: &Region, place: Place, expected: &[u64])
    requires { IsUsed place region.now }
{
    assert!(rt; region.words(place) == expected);
}

/// Gives the last four of ten words back, and takes them anew. None is left after that, and to take none is not
/// refused.
fn take_anew<R: Abort>(rt: &R, region: &mut Region) {
    let mark = region.mark();
    let last = take(rt, region, 4);
    compare_place(rt, last, Place { from: 6, len: 4 });
    region.put(last, &[1, 2, 3, 4]);
    region.release(mark);
    let anew = take(rt, region, 4);
    compare_place(rt, anew, last);
    compare_words(rt, region, anew, &[0, 0, 0, 0]);
    compare_full(rt, region, 1);
    let none = take(rt, region, 0);
    compare_place(rt, none, Place { from: 10, len: 0 });
}

/// Of ten words six are taken: five more are refused, and the four that are left stay free. These are taken, written,
/// given back and handed out anew, and are 0 then.
#[test]
fn hands_out_anew_what_was_given_back(rt: HostRuntime) -> Result<(), Fail> {
    let mut region = Region::open(rt.alloc(), 10)?;
    let first = take(&rt, &mut region, 6);
    compare_place(&rt, first, Place { from: 0, len: 6 });
    compare_full(&rt, &mut region, 5);
    compare_free(&rt, &region, 4);
    take_anew(&rt, &mut region);
    Ok(())
}

// Of ten words: how many are asked for, and from which word onwards they are handed out, if that many are left.
static TAKES: [(usize, Option<usize>); 6] = [
    (4, Some(0)),
    (7, None),
    (6, Some(4)),
    (1, None),
    (0, Some(10)),
    (1, None),
];

/// Asks for words, and compares from where they are handed out.
fn compare_take<R: Abort>(rt: &R, region: &mut Region, len: usize, from: Option<usize>) {
    let place = region.take(len).ok();
    assert_eq!(rt; place, from.map(|from| Place { from, len }), "at {len}");
}

#[test]
fn hands_out_in_order(rt: HostRuntime) -> Result<(), Fail> {
    let mut region = Region::open(rt.alloc(), 10)?;
    for (len, from) in &TAKES {
        compare_take(&rt, &mut region, *len, *from);
    }
    compare_free(&rt, &region, 0);
    Ok(())
}

/// Writes one word of a place.
fn write_second(region: &mut Region, place: Place)
    requires used { IsUsed place region.old }
    requires len { 2 ≤ place.len }
    ensures { region.new.used ≡ region.old.used }
{
    let words = region.words_mut(place);
    words[1] = 8;
}

/// Compares a copy that has the words of both places.
fn compare_copy<R: Abort>(rt: &R, copied: &Region, kept: Place, given_up: Place)
    requires kept { IsUsed kept copied.now }
    requires len { kept.len ≡ 4 }
    requires given_up { IsUsed given_up copied.now }
{
    compare_words(rt, copied, given_up, &[5, 8, 7]);
    assert_eq!(rt; copied.get(kept, 3), 4);
    compare_free(rt, copied, 3);
}

#[test]
fn keeps_what_was_taken_before_a_mark(rt: HostRuntime) -> Result<(), Fail> {
    let mut region = Region::open(rt.alloc(), 10)?;
    let kept = take(&rt, &mut region, 4);
    region.put(kept, &[1, 2, 3, 4]);
    let mark = region.mark();
    let given_up = take(&rt, &mut region, 3);
    region.put(given_up, &[5, 6, 7]);
    write_second(&mut region, given_up);
    let copied = region.copy(rt.alloc())?;
    region.release(mark);
    let anew = take(&rt, &mut region, 3);
    compare_place(&rt, anew, given_up);
    region.set(anew, 2, 9);
    compare_words(&rt, &region, kept, &[1, 2, 3, 4]);
    compare_words(&rt, &region, anew, &[0, 0, 9]);
    compare_copy(&rt, &copied, kept, given_up);
    Ok(())
}

// Arcs over three basin nodes and the outside node, 3.
static ENDS: [Ends; 5] = [
    Ends { from: 0, to: 1 },
    Ends { from: 1, to: 2 },
    Ends { from: 2, to: 3 },
    Ends { from: 0, to: 3 },
    Ends { from: 3, to: 0 },
];

// What three nodes and five arcs take: 8 * 5 + 8 * 3 + 16.
const NEEDED: usize = 80;

/// Asks for a circulation where fewer words are free than it needs.
fn compare_refused<R: Abort>(rt: &R, region: &mut Region, free: usize)
    ensures { region.old.used ≤ region.new.used }
{
    assert!(rt; are_ends(3, &ENDS));
    assert_eq!(rt; Circulation::open(3, &ENDS, region), Err(Full), "at {free}");
}

/// A region with so many free words, fewer than are needed, is full.
fn compare_with<R: Abort>(rt: &R, alloc: Global, free: usize) -> Result<(), AllocError>
    requires { free ≤ 80 }
{
    let mut region = Region::open(alloc, free + 2)?;
    let before = take(rt, &mut region, 2);
    region.put(before, &[7, 8]);
    compare_refused(rt, &mut region, free);
    compare_free(rt, &region, free);
    compare_words(rt, &region, before, &[7, 8]);
    Ok(())
}

#[test]
fn is_full_with_fewer_words_than_it_needs(rt: HostRuntime) -> Result<(), Fail> {
    assert_eq!(rt; words(3, 5), NEEDED);
    for free in 0..NEEDED {
        compare_with(&rt, rt.alloc(), free)?;
    }
    Ok(())
}

/// Opens the circulation where enough words are free, and compares its place.
fn compare_opened<R: Abort>(rt: &R, region: &mut Region)
    ensures { region.old.used ≤ region.new.used }
{
    assert!(rt; are_ends(3, &ENDS));
    let opened = Circulation::open(3, &ENDS, region).expect(rt, "80 words are free");
    compare_place(
        rt,
        opened.place,
        Place {
            from: 2,
            len: NEEDED,
        },
    );
}

#[test]
fn takes_exactly_the_words_that_it_needs(rt: HostRuntime) -> Result<(), Fail> {
    let mut region = Region::open(rt.alloc(), NEEDED + 2)?;
    let before = take(&rt, &mut region, 2);
    region.put(before, &[7, 8]);
    compare_opened(&rt, &mut region);
    compare_free(&rt, &region, 0);
    compare_words(&rt, &region, before, &[7, 8]);
    Ok(())
}

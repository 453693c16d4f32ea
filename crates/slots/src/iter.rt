// The cells of a row one after the other, with no list of them kept: the V fields of the sheet in their places among the C and K fields.
ghost use Rattle.std.specs.Prelude.{◌≤◌, ◌+◌, length, IfSome};
ghost use Rattle.slots.specs.Seat.{SplitsHanging};

use crate::cell::Cell;
use crate::hanging::HangingCell;
use crate::seat::Seat;
use fields::list::split_field;

// What is ahead of a walk: the C and K fields that are left and the position of the first; the V fields that are left; where the cell
// before ended; how far V fields behind all cells reach; and the cells, the front and the back, that come before the C and K fields.
#[derive(Clone, Copy)]
pub struct Slots<'a> {
    cells: &'a [u8],
    pos: usize,
    hanging: &'a [u8],
    next: usize,
    total: usize,
    front: Option<Seat<'a>>,
    back: Option<Seat<'a>>,
    ghost pos_low: { pos ≤ 4351 },
    ghost total_low: { total ≤ 65791 },
}

// The V field that bytes begin with, as a cell of the row, and the bytes behind it.
fn split_hanging(bytes: &[u8]) -> Option<(Seat<'_>, &[u8])>
    ensures shorter { IfSome result (λ p. 3 + length p.1.now ≤ length bytes.now) }
    ensures splits_hanging { SplitsHanging bytes.now result }
{
    let (field, rest) = split_field(bytes)?;
    let cell = HangingCell::of(field)?;
    let seat = Seat::of_hanging(cell);
    Some((seat, rest))
}

impl<'a> Slots<'a> {
    ghost use Rattle.std.specs.Prelude.{◌≡◌, List, ℕ, ◌-◌, [], max};
    ghost use Rattle.rows.specs.Columns.{Slot};
    ghost use Rattle.slots.specs.Iter.{Begins, SlotsLeft, Brings, Gives, PutsBehind};

    // The C and K fields of a call, and the V fields of a sheet.
    #[tactic(auto, using(crate::proofs::SlotLaws::begins))]
    pub fn new(cells: &'a [u8], hanging: &'a [u8]) -> Slots<'a>
        ensures { Begins cells.now hanging.now result }
    {
        Slots {
            cells,
            pos: 0,
            hanging,
            next: 0,
            total: 0,
            front: None,
            back: None,
        }
    }

    // The row's width, once no cell is left.
    pub fn width(&self) -> usize
        ensures upper_bound { result ≤ 65790 }
        ensures value { result ≡ max self.now.total self.now.pos - 1 }
        ensures width_is { (total : ℕ) → SlotsLeft self.now [] total → result ≡ total - 1 }
    {
        self.total.max(self.pos).saturating_sub(1)
    }

    // The next C or K field as the front, if none is there; at a position that 16 cells do not reach there is no field.
    fn bring(&mut self)
        ensures { Brings self.old self.new }
    {
        if self.front.is_some() || 4096 <= self.pos {
            return;
        }
        let Some((field, rest)) = split_field(self.cells) else {
            return;
        };
        let Some(cell) = Cell::of(field) else {
            return;
        };
        let seat = Seat::of_cell(cell, self.pos);
        self.front = Some(seat);
        self.cells = rest;
        self.pos += seat.width + 1;
    }

    // The front is given, and the back comes forward.
    fn give(&mut self) -> Option<Seat<'a>>
        ensures { Gives self.old result self.new }
    {
        let seat = self.front?;
        self.next = seat.pos + seat.width + 1;
        self.front = self.back;
        self.back = None;
        Some(seat)
    }

    // A V field behind all cells, after a filling cell if there is room; rest are the V fields behind it.
    fn put_behind(&mut self, seat: Seat<'a>, rest: &'a [u8])
        ensures { PutsBehind self.old seat.entry rest.now self.new }
    {
        self.hanging = rest;
        let end = seat.pos + seat.width;
        self.total = self.total.max(self.pos);
        if self.total < end {
            self.total = end + 1;
        }
        if self.next < seat.pos {
            self.front = Some(Seat::filling(self.next, seat.pos));
            self.back = Some(seat);
        } else {
            self.front = Some(seat);
        }
    }
}

impl<'a> Iterator for Slots<'a> {
    ghost use Rattle.std.specs.Iterator.{at_most};
    ghost use Rattle.slots.specs.Iter.{slots_measure, NextSlot};

    type Item = Seat<'a>;

    ghost next_gives = { NextSlot };

    ghost remaining = { λ s. at_most (slots_measure s) };

    // A V field stands behind all cells, or behind the front, or takes the front's place. No `for`, since a V field behind the front stays.
    fn next(&mut self) -> Option<Seat<'a>> {
        self.bring();
        while let Some((seat, rest)) = split_hanging(self.hanging) {
            match self.front {
                Some(front) if front.pos < seat.pos => return self.give(),
                Some(_) => {
                    self.front = Some(seat);
                    self.hanging = rest;
                }
                None => self.put_behind(seat, rest),
            }
        }
        self.give()
    }
}

// A row of cells: the first of them in an array, so that a row of few cells is read once, and what is ahead behind them.
ghost use Rattle.std.specs.Prelude.{◌≤◌};

use slots::iter::Slots;
use slots::seat::Seat;

// How many cells are kept.
const KEPT: usize = 16;

// The first seats of a row, so many of the array, and what is ahead behind them.
#[derive(Clone, Copy)]
pub struct Row<'a> {
    seats: [Seat<'a>; KEPT],
    len: usize,
    rest: Slots<'a>,
    ghost few: { len ≤ 16 },
}

// The seats of a row that are left: some of the kept ones, and what is ahead behind them.
#[derive(Clone, Copy)]
pub struct Seats<'r, 'a> {
    kept: &'r [Seat<'a>],
    rest: Slots<'a>,
}

impl<'a> Row<'a> {
    ghost use Rattle.std.specs.Prelude.{◌≡◌, length};
    ghost use Rattle.seats.specs.Row.{KeepsAhead, BeginsRow, KeepsSeats, GivesRest, GivesSeats};

    // The row of the seats that are ahead of a walk.
    pub fn ahead(first: Slots<'a>) -> Row<'a>
        ensures { KeepsAhead first.entry result }
    {
        let mut rest = first;
        // Cells of no width, until seats stand there.
        let mut seats = [Seat::filling(0, 1); KEPT];
        for len in 0..KEPT {
            let Some(seat) = rest.next() else {
                return Row { seats, len, rest };
            };
            seats[len] = seat;
        }
        Row {
            seats,
            len: KEPT,
            rest,
        }
    }

    // The row of a call's C and K fields, and of a sheet's V fields.
    pub fn new(cells: &'a [u8], hanging: &'a [u8]) -> Row<'a>
        ensures { BeginsRow cells.now hanging.now result }
    {
        Row::ahead(Slots::new(cells, hanging))
    }

    // The seats that are kept.
    pub fn kept(&self) -> &[Seat<'a>]
        ensures few { length result.now ≤ 16 }
        ensures keeps_seats { KeepsSeats self.now result.now }
    {
        &self.seats[..self.len]
    }

    // What is ahead behind them.
    pub fn rest(&self) -> Slots<'a>
        ensures { GivesRest self.now result }
    {
        self.rest
    }

    // All seats, one after the other.
    pub fn iter(&self) -> Seats<'_, 'a>
        ensures { GivesSeats self.now result }
    {
        Seats {
            kept: self.kept(),
            rest: self.rest,
        }
    }
}

impl<'r, 'a> Seats<'r, 'a> {
    ghost use Rattle.std.specs.Prelude.{◌≡◌, [], ℕ, ◌-◌, ◌≤◌};
    ghost use Rattle.seats.specs.Row.{SeatsLeft};

    // The row's width, once no seat is left.
    pub fn width(&self) -> usize
        ensures upper_bound { result ≤ 65790 }
        ensures width_is { (total : ℕ) → SeatsLeft self.now [] total → result ≡ total - 1 }
    {
        self.rest.width()
    }
}

impl<'r, 'a> Iterator for Seats<'r, 'a> {
    ghost use Rattle.std.specs.Iterator.{at_most};
    ghost use Rattle.seats.specs.Row.{seats_measure, NextSeat};

    type Item = Seat<'a>;

    ghost next_gives = { NextSeat };

    ghost remaining = { λ s. at_most (seats_measure s) };

    fn next(&mut self) -> Option<Seat<'a>> {
        let [seat, kept @ ..] = self.kept else {
            return self.rest.next();
        };
        self.kept = kept;
        Some(*seat)
    }
}

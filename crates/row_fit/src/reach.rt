// How far the border below a row and its holes reach, seat by seat.
ghost use Rattle.std.specs.Prelude.{◌≤◌, ◌<◌, ◌^◌};
ghost use Rattle.std.specs.Option.{ForSome};

// How a seat meets the border below the row: the last segment at which its last border, if one was taken off, joins it; and the columns of
// the line that hangs through it, if there is one.
#[derive(Clone, Copy)]
pub struct SeatFit {
    pub join: Option<usize>,
    pub through: Option<usize>,
    ghost join_low: { ForSome join (λ i. i < 2 ^ 19) },
    ghost through_low: { ForSome through (λ cols. cols < 2 ^ 19) },
}

// How far the border below a row and its holes reach past a place, one too high or 0; whether the holes reach further; and whether there is one.
#[derive(Clone, Copy)]
pub struct Reach {
    pub border: usize,
    pub holes: usize,
    pub over: bool,
    pub any: bool,
    ghost border_low: { border ≤ 2 ^ 20 },
    ghost holes_low: { holes ≤ 2 ^ 20 },
}

impl Reach {
    ghost use Rattle.std.specs.Prelude.{◌+◌, ◌<◌, ◌^◌};
    ghost use Rattle.row_fit.specs.Reach.{ReachIs, Reaches};

    // Before the first seat: the border is as long as the row is wide, and there is no hole.
    pub fn first(total: usize) -> Reach
        requires { total < 2 ^ 20 }
        ensures { ReachIs result 0 (total + 1) 0 }
    {
        Reach {
            border: total + 1,
            holes: 0,
            over: false,
            any: false,
        }
    }

    // Past the edge behind one seat: edge says whether the border joins the edge before it.
    pub fn past(self, edge: bool, fit: SeatFit, width: usize) -> Reach
        requires { width < 2 ^ 20 }
        ensures { Reaches self edge fit width result }
    {
        let join = fit.join.map_or(0, |i| i + 2);
        let hole = fit.through.map_or(0, |cols| cols + 1);
        let border = self.border.max(usize::from(edge)).max(join);
        let holes = self.holes.max(hole);
        // Where neither reaches the place, nothing changes.
        let over = if border + holes == 0 {
            self.over
        } else {
            border < holes
        };
        Reach {
            border: border.saturating_sub(width + 1),
            holes: holes.saturating_sub(width + 1),
            over,
            any: self.any || fit.through.is_some(),
        }
    }
}

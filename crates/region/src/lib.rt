// One component's region of the work space: where its means, inverse variances, rows, right side, factors and values lie, one after the other. The regions of
// several components lie one after the other too.
#![tactic(auto)]

ghost use Rattle.std.specs.Prelude.{◌≡◌, ◌*◌, leb};
ghost use Rattle.region.specs.Region.{floats_of, size_of, places_of};

// What a region's places follow from: so many windows, so many frames, and rows so wide. No such numbers are too large for a place.
#[derive(Clone, Copy, Debug, PartialEq, Eq)]
pub struct Layout {
    pub windows: u8,
    pub n: u32,
    pub w: u8,
}

// Where the parts of a region begin; the means are at 0. It has `size` floats.
#[derive(Clone, Copy, Debug, PartialEq, Eq)]
pub struct Places {
    pub ivars: usize,
    pub rows: usize,
    pub right: usize,
    pub factors: usize,
    pub values: usize,
    pub size: usize,
}

// Of v components those from `first` on, so many.
#[derive(Clone, Copy, Debug, PartialEq, Eq)]
pub struct Group {
    pub v: usize,
    pub first: usize,
    pub lanes: usize,
}

impl Layout {
    // How many floats a frame takes.
    pub fn floats(self) -> usize
        ensures { result ≡ floats_of self }
    {
        let windows = usize::from(self.windows);
        let row = usize::from(self.w) + 1;
        windows + windows + row + row
    }

    pub fn places(self) -> Places
        ensures { result ≡ places_of self }
    {
        let n = self.n as usize;
        let w = usize::from(self.w);
        let ivars = usize::from(self.windows) * n;
        let rows = ivars + ivars;
        let right = rows + n * w;
        let factors = right + n;
        let values = factors + n * w;
        let size = values + n;
        Places {
            ivars,
            rows,
            right,
            factors,
            values,
            size,
        }
    }

    // Whether the regions of so many components fit into so many floats.
    pub fn fits(self, lanes: usize, floats: usize) -> bool
        ensures { result ≡ leb (lanes * size_of self) floats }
    {
        let p = self.places();
        lists::has_room(lanes, p.size, floats)
    }
}

// What runs are found in.
ghost use Rattle.std.specs.Prelude.{length};
ghost use Rattle.runs.specs.Inner.Finding.{Recorded};

use voicing::Voicing;

// A stream's states as they are lent: their records, how these are read, and their frames. There is a record a state, and no more frames than allowed.
#[derive(Clone, Copy)]
pub(crate) struct States<'a> {
    pub(crate) records: &'a [f64],
    pub(crate) voicing: Voicing,
    pub(crate) durations: &'a [u32],
    ghost recorded: { Recorded voicing (length records.now) durations.now },
}

// A store as it is lent to be read.
ghost use Rattle.std.specs.Prelude.{◌≡◌, length};
ghost use Rattle.lists.specs.Sizes.{most_voices};
ghost use Rattle.settings.specs.Store.{store_settings};

// The places alone, at the front of both lists: a number for each, and three settings.
#[derive(Clone, Copy)]
pub struct Store<'a> {
    pub voices: &'a [u32],
    pub settings: &'a [u64],
    ghost numbers: { length voices.now ≡ most_voices },
    ghost kept: { length settings.now ≡ store_settings },
}

// What is left of the actions' costs in a round: nothing above what the largest cost begins with.
ghost use Rattle.std.specs.Prelude.{◌≡◌, length};
ghost use Rattle.lmcut.specs.Drawn.{Modest};

#[derive(Clone, Copy)]
pub(crate) struct Left {
    pub(crate) of: [u64; 257],
    ghost modest: { Modest of },
    ghost long: { length of ≡ 257 },
}

// A task whose tables passed the check. There is no other way to get one: the check's own answer is what the making asks for.
ghost use Rattle.std.specs.Prelude.{◌≡◌, true};
ghost use Rattle.tables.specs.Check.{accepted};
ghost use Rattle.tables.specs.Problem.{contents};

use tables::Tables;

#[derive(Clone, Copy)]
pub struct Task<'a> {
    pub(crate) tables: Tables<'a>,
    ghost kept: { accepted (contents tables) ≡ true },
}

impl<'a> Task<'a> {
    // The accepted task of tables that the check accepts.
    pub fn new(tables: Tables<'a>) -> Task<'a>
        requires { accepted (contents tables) ≡ true }
        ensures { result.tables ≡ tables.entry }
    {
        Task { tables }
    }

    // The tables, as lent.
    pub fn tables(&self) -> Tables<'a>
        ensures { result ≡ self.now.tables }
    {
        self.tables
    }
}

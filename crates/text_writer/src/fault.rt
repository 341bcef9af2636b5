// Why a table is not written.
ghost use Rattle.std.specs.Prelude.{◌≡◌};
ghost use Rattle.text_writer.specs.declared.fault.WriteFault.TheVariants.{Table};

use table::Refusal;

#[derive(Clone, Copy)]
pub enum WriteFault {
    // 21 or 22
    Table(Refusal),
    // 16: the length that is needed
    Sink(usize),
}

impl From<Refusal> for WriteFault {
    ghost from_gives = { λ why e. e ≡ Table why };

    fn from(why: Refusal) -> WriteFault {
        WriteFault::Table(why)
    }
}

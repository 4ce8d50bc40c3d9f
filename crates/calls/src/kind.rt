// The kinds of call, by their tags, and why bytes are no call.
ghost use Rattle.std.specs.Prelude.{◌≡◌};
ghost use Rattle.calls.specs.Format.{form, form_of};
ghost use Rattle.calls.specs.Kinds.{tag_of, IsKindOf};

// Why there is no call at the front of some bytes: their tag is none, a buffer says that it has too many elements, or they end before the call does.
#[derive(Clone, Copy, PartialEq, Eq)]
pub enum Bad {
    Tag,
    Length,
    CutShort,
}

#[derive(Clone, Copy)]
pub enum Kind {
    PointerWrite,
    PointerRead,
    GridPlan,
    GridRead,
    GridStore,
    GridConvert,
    Transfer,
}

impl TryFrom<u8> for Kind {
    type Error = Bad;

    ghost try_from_gives = { IsKindOf };

    fn try_from(tag: u8) -> Result<Kind, Bad> {
        match tag {
            1 => Ok(Kind::PointerWrite),
            2 => Ok(Kind::PointerRead),
            3 => Ok(Kind::GridPlan),
            4 => Ok(Kind::GridRead),
            5 => Ok(Kind::GridStore),
            6 => Ok(Kind::GridConvert),
            7 => Ok(Kind::Transfer),
            _ => Err(Bad::Tag),
        }
    }
}

// A call's form: how many numbers it has, how many buffers, and how many bytes an element of each has, 0 where there is none.
// The widths are an array with a length beside it as in `table` of specs/Format.antt, on which the theorems about where a call ends rest.
#[derive(Drop)]
pub struct Form {
    pub numbers: usize,
    pub buffers: usize,
    pub widths: [usize; 5],
}

fn shape(numbers: usize, buffers: usize, widths: [usize; 5]) -> Form
    ensures { result ≡ form numbers buffers widths }
{
    Form {
        numbers,
        buffers,
        widths,
    }
}

impl Kind {
    #[tactic(auto, unfolding(crate::specs::Format::table, crate::specs::Format::form_of))]
    pub fn form(self) -> Form
        ensures { result ≡ form_of (tag_of self) }
    {
        match self {
            Kind::PointerWrite => shape(1, 5, [1, 1, 1, 1, 1]),
            Kind::PointerRead => shape(1, 3, [1, 1, 1, 0, 0]),
            Kind::GridPlan => shape(3, 4, [8, 8, 8, 1, 0]),
            Kind::GridRead => shape(3, 3, [8, 1, 8, 0, 0]),
            Kind::GridStore => shape(3, 5, [8, 8, 8, 1, 8]),
            Kind::GridConvert => shape(4, 2, [1, 1, 0, 0, 0]),
            Kind::Transfer => shape(3, 3, [1, 1, 8, 0, 0]),
        }
    }
}

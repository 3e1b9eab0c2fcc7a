// The parts of the analyzer that stored cases are for, by their numbers.
ghost use Rattle.replay_cases.specs.Parts.{Numbered};

#[derive(Clone, Copy)]
pub enum Part {
    Layout,
    Scope,
    Order,
    Checks,
    Whole,
}

// A number that no part has.
#[derive(Clone, Copy)]
pub struct UnknownPart;

impl TryFrom<u32> for Part {
    type Error = UnknownPart;

    ghost try_from_gives = { Numbered };

    fn try_from(number: u32) -> Result<Self, UnknownPart> {
        match number {
            1 => Ok(Part::Layout),
            2 => Ok(Part::Scope),
            3 => Ok(Part::Order),
            4 => Ok(Part::Checks),
            5 => Ok(Part::Whole),
            _ => Err(UnknownPart),
        }
    }
}

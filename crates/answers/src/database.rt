// Document 01, "Builder": the answers.
ghost use Rattle.answers.specs.Database.{building_refusal, building_refuses};

use super::refusal::Refusal;

// Why the builder refuses.
#[derive(Clone, Copy, Debug, PartialEq, Eq)]
pub enum BuildingRefusal {
    // 1: b is outside 4..=14.
    Width,
    // 2: R outside 1..=4096, C outside 1..=512, more keys than rows, a lent length wrong, or the database too short.
    Shape,
    // 17: an element of a key's row is 2^b or more.
    Element,
    // 15: a key's positions or target index are bad, or its target is a position of a key written before it.
    Placement,
}

impl Refusal for BuildingRefusal {
    ghost number = { building_refusal };

    ghost refuses = { building_refuses };

    fn number(self) -> u32 {
        match self {
            BuildingRefusal::Width => 1,
            BuildingRefusal::Shape => 2,
            BuildingRefusal::Element => 17,
            BuildingRefusal::Placement => 15,
        }
    }
}

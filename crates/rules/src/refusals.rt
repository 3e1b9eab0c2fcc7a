// The replies to a layout that is not sound.
ghost use Rattle.std.specs.Prelude.{◌≡◌};
ghost use Rattle.rules.specs.Replies.{refused};

use crate::{LayoutError, Reply};

impl From<LayoutError> for Reply {
    ghost from_gives = { λ error reply. reply ≡ refused error };

    fn from(error: LayoutError) -> Reply {
        match error {
            LayoutError::Uneven => Reply::Uneven,
            LayoutError::TooLong => Reply::TooLong,
            LayoutError::Malformed(place) => Reply::Malformed(place),
        }
    }
}

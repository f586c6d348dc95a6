// What is known of sockets between two questions to the system.

/// How many calls on a socket that would have to wait are answered so before the system is asked again.
const RESTS: u32 = 63;

/// What is known of calls on a socket.
#[derive(Clone, Copy, Debug, PartialEq, Eq)]
pub enum Readiness {
    /// The next one may come to something.
    Ready,
    /// Each would have to wait. So many more are answered so, where the system has been asked that often.
    Rests { left: u32, asked: u64 },
}

impl Readiness {
    /// A call would have had to wait, when the system had been asked that often.
    pub(crate) fn begins_to_rest(asked: u64) -> Readiness {
        Readiness::Rests { left: RESTS, asked }
    }

    pub(crate) fn is_ready(self) -> bool {
        matches!(self, Readiness::Ready)
    }

    /// What is known behind the next call, when the system has been asked that often; none where it is to be asked
    /// before.
    pub(crate) fn at_a_call(self, asked: u64) -> Option<Readiness> {
        match self {
            Readiness::Ready => Some(Readiness::Ready),
            Readiness::Rests {
                left,
                asked: before,
            } => {
                let left = if before == asked { left } else { RESTS };
                let left = left.checked_sub(1)?;
                Some(Readiness::Rests { left, asked })
            }
        }
    }
}

/// What is known of calls on a connection, in each direction.
#[derive(Clone, Copy, Debug, PartialEq, Eq)]
pub struct Ways {
    pub receives: Readiness,
    pub sends: Readiness,
}

impl Ways {
    pub(crate) fn ready() -> Ways {
        Ways {
            receives: Readiness::Ready,
            sends: Readiness::Ready,
        }
    }
}

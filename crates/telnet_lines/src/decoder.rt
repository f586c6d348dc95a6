ghost use Rattle.std.specs.Prelude.{◌≡◌, ◌≤◌, ℕ, List, [], ◌∷◌, ◌++◌, length, option_to_list};
ghost use Rattle.circular_buffer.specs.Buffer.{buffer};
ghost use Rattle.telnet_lines.specs.Telnet.{with_data, text_from, further_keys, further_rest};
ghost use Rattle.telnet_lines.specs.declared.decoder.Place.TheVariants.{BehindIac};

use circular_buffer::HeapCircularBuffer;

/// Which sequence is unfinished at the end of the bytes that were received.
#[derive(Clone, Copy, Debug, PartialEq, Eq)]
pub enum Place {
    /// None.
    Outside,
    /// One of which the IAC was received.
    BehindIac,
    /// WILL, WONT, DO or DONT, whose option is still to come.
    BehindOption,
    /// A subnegotiation.
    WithinSubnegotiation,
    /// A subnegotiation of which an IAC was received last that may begin its end.
    WithinPair,
}

/// What the bytes that were received on a connection leave undecoded.
#[derive(Clone, Copy, Debug, PartialEq, Eq)]
pub struct Rest {
    pub(crate) place: Place,
    /// Whether the last data byte is a carriage return.
    pub(crate) returned: bool,
}

/// What is left where nothing was received.
pub(crate) const NO_REST: Rest = Rest {
    place: Place::Outside,
    returned: false,
};

// Names of RFC 854.
const IAC: u8 = 255;

const DONT: u8 = 254;

const WILL: u8 = 251;

const SB: u8 = 250;

const SE: u8 = 240;

const CARRIAGE_RETURN: u8 = 13;

const LINE_FEED: u8 = 10;

const NUL: u8 = 0;

/// Decodes bytes behind a rest. Their keys go into `keys`, which is empty and has room for a key of each byte.
pub(crate) fn decode(rest: &mut Rest, bytes: &[u8], keys: &mut HeapCircularBuffer<u8>)
    requires room { length bytes.now ≤ keys.old.capacity }
    requires empty { keys.old.items ≡ [] }
    ensures keys { keys.new ≡ buffer (further_keys rest.old bytes.now) keys.old.capacity }
    ensures rest { rest.new ≡ further_rest rest.old bytes.now }
    ensures few { length keys.new.items ≤ length bytes.now }
{
    for byte in bytes {
        if let Some(key) = rest.take(*byte) {
            let _ = keys.try_push_back(key);
        }
    }
}

impl Rest {
    /// Takes one more byte, and answers the key that it gives, if any.
    #[tactic(auto, unfolding(crate::specs::Telnet::without_fill, crate::specs::Telnet::ends_returned))]
    pub(crate) fn take(&mut self, byte: u8) -> Option<u8>
        ensures keys { (more : List ℕ) → further_keys self.old (byte ∷ more) ≡ option_to_list result ++ further_keys self.new more }
        ensures rest { (more : List ℕ) → further_rest self.old (byte ∷ more) ≡ further_rest self.new more }
    {
        let (place, given) = read(self.place, byte);
        self.place = place;
        let data = given?;
        let is_dropped = self.returned && (data == NUL || data == LINE_FEED);
        self.returned = data == CARRIAGE_RETURN;
        if is_dropped { None } else { Some(data) }
    }
}

/// Where a byte leads from a place, and the data byte that it gives, if any.
#[tactic(auto, unfolding(crate::specs::Telnet::text))]
pub(crate) fn read(place: Place, byte: u8) -> (Place, Option<u8>)
    ensures { (more : List ℕ) → text_from place (byte ∷ more) ≡ with_data (option_to_list result.1) (text_from result.0 more) }
{
    match place {
        Place::Outside if byte == IAC => (Place::BehindIac, None),
        Place::Outside => (Place::Outside, Some(byte)),
        Place::BehindIac => read_command(byte),
        Place::BehindOption => (Place::Outside, None),
        Place::WithinSubnegotiation if byte == IAC => (Place::WithinPair, None),
        Place::WithinPair if byte == SE => (Place::Outside, None),
        Place::WithinSubnegotiation | Place::WithinPair => (Place::WithinSubnegotiation, None),
    }
}

/// The same of a byte behind IAC.
#[tactic(auto, unfolding(crate::specs::Telnet::text))]
fn read_command(byte: u8) -> (Place, Option<u8>)
    ensures { (more : List ℕ) → text_from BehindIac (byte ∷ more) ≡ with_data (option_to_list result.1) (text_from result.0 more) }
{
    match byte {
        IAC => (Place::Outside, Some(IAC)),
        SB => (Place::WithinSubnegotiation, None),
        WILL..=DONT => (Place::BehindOption, None),
        _ => (Place::Outside, None),
    }
}

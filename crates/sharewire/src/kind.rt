// The kinds of packets, and the byte that is each.
ghost use Rattle.std.specs.Prelude.{◌≡◌};
ghost use Rattle.sharewire.specs.Kinds.{kind_byte, kind_from, kind_of};

use crate::packet::Packet;

#[derive(Clone, Copy, Debug)]
pub(crate) enum Kind {
    Hello,
    // A hello of a later layout than 1, with the layout in its body.
    LaterHello,
    Change,
    Part,
    Request,
    Accepted,
    Refused,
    BotText,
}

impl Kind {
    pub(crate) fn from_byte(byte: u8) -> Option<Kind>
        ensures { result ≡ kind_from byte }
    {
        match byte {
            1 => Some(Kind::Hello),
            2 => Some(Kind::Change),
            3 => Some(Kind::Part),
            4 => Some(Kind::Request),
            5 => Some(Kind::Accepted),
            6 => Some(Kind::Refused),
            7 => Some(Kind::BotText),
            8 => Some(Kind::LaterHello),
            _ => None,
        }
    }

    pub(crate) fn byte(self) -> u8
        ensures { result ≡ kind_byte self }
    {
        match self {
            Kind::Hello => 1,
            Kind::Change => 2,
            Kind::Part => 3,
            Kind::Request => 4,
            Kind::Accepted => 5,
            Kind::Refused => 6,
            Kind::BotText => 7,
            Kind::LaterHello => 8,
        }
    }
}

impl Packet {
    pub(crate) fn kind(&self) -> Kind
        ensures { result ≡ kind_of self.now }
    {
        match self {
            Packet::Hello { layout: 1, .. } => Kind::Hello,
            Packet::Hello { .. } => Kind::LaterHello,
            Packet::Change { .. } => Kind::Change,
            Packet::Part { .. } => Kind::Part,
            Packet::Request { .. } => Kind::Request,
            Packet::Accepted { .. } => Kind::Accepted,
            Packet::Refused { .. } => Kind::Refused,
            Packet::BotText { .. } => Kind::BotText,
        }
    }
}

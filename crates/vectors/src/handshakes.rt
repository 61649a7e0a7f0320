// What the sides of a connection hear before its first record.
use bytetext::Text;
use caselines::{BAD_WORDS, CaseError, Sink, number};
use handshake::{
    Ask, DrawnNumber, HandshakeFault, HandshakeRefusal, HubAnswer, HubHears, HubSide, LeafHears,
    LeafRights, LeafSide, LinkKeys, Nonce, Place, Progress, is_late, leaf_key,
};
use sealing::Key;
use std::alloc::Global;

/// Answers `hub SECRET NET LEAVES NONCE HEARD..` on `out`: what a hub says first, and what it makes of each of these.
pub fn hub(alloc: Global, words: &[Text], out: &mut Sink) -> Result<(), CaseError> {
    let [secret, net, leaves, nonce, heard @ ..] = words else {
        return Err(BAD_WORDS);
    };
    let hub = hub_side(secret, net, None, leaves, nonce)?;
    out.put(b"says");
    out.quoted(hub.greeting().as_bytes());
    for word in heard {
        out.put(b" ; ");
        let bytes = bytes_of(alloc, word)?;
        show_hub(&hub.hear(bytes.as_slice()), out);
    }
    Ok(())
}

fn show_hub(hears: &HubHears, out: &mut Sink) {
    match hears {
        HubHears::More => out.put(b"more"),
        HubHears::Asks { used, ask } => {
            out.put(b"leaf ");
            out.number(u64::from(ask.words.leaf));
            out.put(b" asks, used ");
            out.number(*used as u64);
        }
        HubHears::Refused(fault) => show_fault(*fault, out),
    }
}

/// Answers `judge SECRET NET PARENT LEAVES NONCE PLACE VERSION SUM LAST MAY HEARD` on `out`: what a hub that has come so
/// far answers a leaf whose folder has this place, and the keys of the records.
pub fn judge(alloc: Global, words: &[Text], out: &mut Sink) -> Result<(), CaseError> {
    let [
        secret,
        net,
        parent,
        leaves,
        nonce,
        place,
        version,
        sum,
        last,
        may,
        heard,
    ] = words
    else {
        return Err(BAD_WORDS);
    };
    let hub = hub_side(secret, net, kept_net(parent)?, leaves, nonce)?;
    let own = progress_of(version, sum, last)?;
    let may = rights_of(may)?;
    let bytes = bytes_of(alloc, heard)?;
    let HubHears::Asks { used: _, ask } = hub.hear(bytes.as_slice()) else {
        return Err(BAD_WORDS);
    };
    match hub.judge(&ask, place_of(place)?, &own) {
        Some(refusal) => {
            out.put(b"refuses and says");
            out.quoted(hub.refuse(&ask, refusal).as_bytes());
        }
        None => show_welcome(&hub, &ask, &own, may, out),
    }
    Ok(())
}

fn show_welcome(hub: &HubSide, ask: &Ask, own: &Progress, may: LeafRights, out: &mut Sink) {
    out.put(b"welcomes and says");
    out.quoted(hub.welcome(ask, own, may).as_bytes());
    show_keys(&hub.keys(ask, own, may), out);
}

// The codes of the empty text under the keys of the records.
fn show_keys(keys: &LinkKeys, out: &mut Sink) {
    out.put(b" to leaf ");
    out.put(&keys.to_leaf.code(b""));
    out.put(b" to hub ");
    out.put(&keys.to_hub.code(b""));
}

/// Answers `leaf SECRET NUMBER LEAVES NET MADE VERSION SUM LAST NONCE HEARD..` on `out`: what a leaf makes of each of
/// these, in turn.
pub fn leaf(alloc: Global, words: &[Text], out: &mut Sink) -> Result<(), CaseError> {
    let [
        secret,
        leaf,
        leaves,
        net,
        made,
        version,
        sum,
        last,
        nonce,
        heard @ ..,
    ] = words
    else {
        return Err(BAD_WORDS);
    };
    let leaf = number(leaf.as_bytes())?;
    let mut side = LeafSide {
        key: leaf_key(&Key::new(secret.as_bytes()), leaf),
        leaf,
        leaves: number(leaves.as_bytes())?,
        net: kept_net(net)?,
        made: drawn(made)?,
        own: progress_of(version, sum, last)?,
        nonce: nonce_of(nonce)?,
        greeted: None,
    };
    for (place, word) in heard.iter().enumerate() {
        out.between(b" ; ", place);
        let bytes = bytes_of(alloc, word)?;
        show_leaf(&side.hear(bytes.as_slice()), out);
    }
    Ok(())
}

fn show_leaf(hears: &LeafHears, out: &mut Sink) {
    match hears {
        LeafHears::More => out.put(b"more"),
        LeafHears::Answers { used, line } => {
            out.put(b"answers, used ");
            out.number(*used as u64);
            out.put(b" says");
            out.quoted(line.as_bytes());
        }
        LeafHears::Joined { used, answer, keys } => {
            out.put(b"joins, used ");
            out.number(*used as u64);
            show_answer(answer, out);
            show_keys(keys, out);
        }
        LeafHears::Refused(fault) => show_fault(*fault, out),
    }
}

fn show_answer(answer: &HubAnswer, out: &mut Sink) {
    out.put(b" net ");
    out.put(answer.net.as_bytes());
    out.put(b" version ");
    out.number(u64::from(answer.progress.version));
    out.put(b" sum ");
    out.put(&answer.progress.sum);
    out.put(b" last ");
    out.number(u64::from(answer.progress.last));
    out.put(match answer.may {
        LeafRights::Asks => b" asks".as_slice(),
        LeafRights::Reads => b" reads".as_slice(),
        LeafRights::Persons => b" persons".as_slice(),
    });
}

// The name of a fault.
fn show_fault(fault: HandshakeFault, out: &mut Sink) {
    out.put(b"refused: ");
    match fault {
        HandshakeFault::TooLong => out.put(b"too long"),
        HandshakeFault::TooLate => out.put(b"too late"),
        HandshakeFault::NoGreeting => out.put(b"no greeting"),
        HandshakeFault::OtherVersion => out.put(b"other version"),
        HandshakeFault::NoLeafLine => out.put(b"no leaf line"),
        HandshakeFault::OldLeaf => out.put(b"old leaf"),
        HandshakeFault::NoSuchLeaf => out.put(b"no such leaf"),
        HandshakeFault::NoHubLine => out.put(b"no hub line"),
        HandshakeFault::WrongCode => out.put(b"wrong code"),
        HandshakeFault::OtherNet => out.put(b"other net"),
        HandshakeFault::Refused(refusal) => show_refusal(b"refused ", refusal, out),
        HandshakeFault::Told(refusal) => show_refusal(b"told ", refusal, out),
    }
}

fn show_refusal(front: &[u8], refusal: HandshakeRefusal, out: &mut Sink) {
    out.put(front);
    out.put(match refusal {
        HandshakeRefusal::Heir => b"heir".as_slice(),
        HandshakeRefusal::Net => b"net".as_slice(),
        HandshakeRefusal::Count => b"count".as_slice(),
        HandshakeRefusal::Other => b"other".as_slice(),
        HandshakeRefusal::Ahead => b"ahead".as_slice(),
        HandshakeRefusal::Records => b"records".as_slice(),
        HandshakeRefusal::Older => b"older".as_slice(),
    });
}

/// Answers `late BEGAN NOW` on `out`: whether a handshake that began then is too late now.
pub fn late(words: &[Text], out: &mut Sink) -> Result<(), CaseError> {
    let [began, now] = words else {
        return Err(BAD_WORDS);
    };
    let is_late = is_late(number(began.as_bytes())?, number(now.as_bytes())?);
    out.put(if is_late { b"late" } else { b"not late" });
    Ok(())
}

fn hub_side(
    secret: &Text,
    net: &Text,
    parent: Option<DrawnNumber>,
    leaves: &Text,
    nonce: &Text,
) -> Result<HubSide, CaseError> {
    Ok(HubSide {
        key: Key::new(secret.as_bytes()),
        net: drawn(net)?,
        parent,
        leaves: number(leaves.as_bytes())?,
        nonce: nonce_of(nonce)?,
    })
}

/// Returns the bytes of `word`, in which each `/` stands for a line feed.
pub fn bytes_of(alloc: Global, word: &Text) -> Result<Vec<u8>, CaseError> {
    let mut bytes = Vec::new(alloc);
    for byte in word.as_bytes() {
        bytes.push(if *byte == b'/' { b'\n' } else { *byte })?;
    }
    Ok(bytes)
}

fn progress_of(version: &Text, sum: &Text, last: &Text) -> Result<Progress, CaseError> {
    // A sum is written as the number of a folder is.
    let digits = drawn(sum)?;
    let mut sum = [0; 16];
    sum.copy_from_slice(digits.as_bytes());
    Ok(Progress {
        version: number(version.as_bytes())?,
        sum,
        last: number(last.as_bytes())?,
    })
}

fn rights_of(word: &Text) -> Result<LeafRights, CaseError> {
    match word.as_bytes() {
        b"asks" => Ok(LeafRights::Asks),
        b"reads" => Ok(LeafRights::Reads),
        b"persons" => Ok(LeafRights::Persons),
        _ => Err(BAD_WORDS),
    }
}

fn place_of(word: &Text) -> Result<Place, CaseError> {
    match word.as_bytes() {
        b"free" => Ok(Place::Free),
        b"same" => Ok(Place::Same),
        b"taken" => Ok(Place::Taken),
        b"barred" => Ok(Place::Barred),
        _ => Err(BAD_WORDS),
    }
}

fn kept_net(word: &Text) -> Result<Option<DrawnNumber>, CaseError> {
    match word.as_bytes() {
        b"-" => Ok(None),
        _ => Ok(Some(drawn(word)?)),
    }
}

/// Returns the number that `word` spells.
pub fn drawn(word: &Text) -> Result<DrawnNumber, CaseError> {
    DrawnNumber::read(word.as_bytes()).ok_or(BAD_WORDS)
}

fn nonce_of(word: &Text) -> Result<Nonce, CaseError> {
    Nonce::read(word.as_bytes()).ok_or(BAD_WORDS)
}

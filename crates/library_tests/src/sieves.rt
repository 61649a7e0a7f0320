// A stream through a sieve.
use floods::{FloodKind, Limits, Sieve, Trusts};

struct Ann;

impl Trusts for Ann {
    ghost use Rattle.std.specs.Prelude.{codes};
    ghost use Rattle.std.specs.Str.{bytes_eq};

    ghost trusted = { λ _ person. bytes_eq (codes "ann!a@h") person };

    fn is_trusted(&self, person: &[u8]) -> bool {
        matches!(person, b"ann!a@h")
    }
}

#[test]
fn strangers_are_ignored(rt: HostRuntime) {
    let alloc = rt.alloc();
    let mut sieve = Sieve::new(alloc, Limits::eggdrop()).expect(&rt, "memory");
    let lines =
        b":bob!b@Host PRIVMSG egg :hi\r\n:ann!a@h PRIVMSG egg :hi\r\nPING :a\r\n".as_slice();
    for i in 0..10 {
        let sifted = sieve.sift(alloc, lines, 100, &Ann).expect(&rt, "memory");
        let wants = if i < 5 {
            lines
        } else {
            b"\n:ann!a@h PRIVMSG egg :hi\r\nPING :a\r\n".as_slice()
        };
        assert!(rt; sifted.bytes.as_slice() == wants);
        assert!(rt; sifted.dropped == if i < 5 { 0 } else { 1 });
        assert!(rt; sifted.begun == if i == 5 { 1 } else { 0 });
    }
    assert!(rt; sieve.ignores().len() == 1);
    assert!(rt; sieve.ignores()[0].key.as_bytes() == b"b@host".as_slice());
    assert!(rt; sieve.ignores()[0].until == 700);
    let sifted = sieve
        .sift(alloc, b":bob!b@hoST NOTICE #a :x\n", 699, &Ann)
        .expect(&rt, "memory");
    assert!(rt; sifted.bytes.is_empty());
    let sifted = sieve
        .sift(alloc, b":bob!b@hoST NOTICE #a :x\n:b", 700, &Ann)
        .expect(&rt, "memory");
    assert!(rt; sifted.bytes.as_slice() == b":bob!b@hoST NOTICE #a :x\n".as_slice());
    let sifted = sieve
        .sift(alloc, b"ob!b@hoST NOTICE #a :x\n", 700, &Ann)
        .expect(&rt, "memory");
    assert!(rt; sifted.bytes.as_slice() == b":bob!b@hoST NOTICE #a :x\n".as_slice());
}

// A line, and the ignore that it begins if it is sent too often.
struct Flood {
    line: &'static [u8],
    // How often it is sent without beginning one.
    harmless: usize,
    kind: FloodKind,
    place: &'static [u8],
    most: u16,
    seconds: u32,
}

const FLOODS: [Flood; 7] = [
    Flood {
        line: b":bob!b@h JOIN :#Egg\r\n",
        harmless: 5,
        kind: FloodKind::Join,
        place: b"#Egg",
        most: 5,
        seconds: 60,
    },
    Flood {
        line: b":bob!b@h JOIN #egg bob :Bob\r\n",
        harmless: 5,
        kind: FloodKind::Join,
        place: b"#egg",
        most: 5,
        seconds: 60,
    },
    Flood {
        line: b":bob!b@h NICK :rob\r\n",
        harmless: 5,
        kind: FloodKind::Nick,
        place: b"",
        most: 5,
        seconds: 60,
    },
    Flood {
        line: b":bob!b@h KICK #egg ann :out\r\n",
        harmless: 3,
        kind: FloodKind::Kick,
        place: b"#egg",
        most: 3,
        seconds: 10,
    },
    Flood {
        line: b":bob!b@h MODE #egg -ooo+v-b+o ann cat dan eve *!*@x bob\r\n",
        harmless: 1,
        kind: FloodKind::Deop,
        place: b"#egg",
        most: 3,
        seconds: 10,
    },
    Flood {
        line: b":bob!b@h MODE #egg -oooo ann cat dan eve\r\n",
        harmless: 0,
        kind: FloodKind::Deop,
        place: b"#egg",
        most: 3,
        seconds: 10,
    },
    Flood {
        line: b":bob!b@h MODE #egg -oo+v-o ann cat bob dan\r\n",
        harmless: 1,
        kind: FloodKind::Deop,
        place: b"#egg",
        most: 3,
        seconds: 10,
    },
];

#[test]
fn who_floods_a_channel_is_told(rt: HostRuntime) {
    let alloc = rt.alloc();
    for flood in &FLOODS {
        let mut sieve = Sieve::new(alloc, Limits::eggdrop()).expect(&rt, "memory");
        for i in 0..10 {
            let sifted = sieve
                .sift(alloc, flood.line, 100, &Ann)
                .expect(&rt, "memory");
            assert!(rt; sifted.bytes.as_slice() == flood.line);
            assert!(rt; sifted.dropped == 0);
            assert!(rt; sifted.begun == if i == flood.harmless { 1 } else { 0 });
        }
        let ignores = sieve.last_ignores(1);
        assert!(rt; ignores.len() == 1);
        assert!(rt; ignores[0].key.as_bytes() == b"b@h".as_slice());
        assert!(rt; ignores[0].until == 700);
        assert!(rt; ignores[0].kind == flood.kind);
        assert!(rt; ignores[0].place.as_bytes() == flood.place);
        assert!(rt; ignores[0].limit.lines == flood.most);
        assert!(rt; ignores[0].limit.seconds == flood.seconds);
        // Who is ignored is not heard, though what he does to channels is.
        let sifted = sieve
            .sift(
                alloc,
                b":bob!b@h PRIVMSG egg :hi\n:bob!b@h PART #egg\n",
                100,
                &Ann,
            )
            .expect(&rt, "memory");
        assert!(rt; sifted.bytes.as_slice() == b":bob!b@h PART #egg\n".as_slice());
    }
}

// Lines that begin no ignore, however often they are sent.
const HARMLESS: [&[u8]; 7] = [
    // one channel has no more than five of these joins
    b":bob!b@h JOIN #a\n:bob!b@h JOIN #b\n:bob!b@h JOIN #c\n:bob!b@h JOIN #d\n:bob!b@h JOIN #e\n:bob!b@h JOIN #f\n",
    b":bob!b@h MODE #egg +ooo-v+o ann cat dan eve bob\n",
    b":bob!b@h MODE bob -oooo\n",
    b":irc.example MODE #egg -oooo ann cat dan eve\n",
    b":bob JOIN #egg\n",
    b":ann!a@h JOIN #egg\n:ann!a@h NICK ann\n",
    b":bob!b@h PART #egg\n:bob!b@h QUIT\nPING :a\n",
];

#[test]
fn who_floods_none_is_not_told(rt: HostRuntime) {
    let alloc = rt.alloc();
    for (i, lines) in HARMLESS.iter().enumerate() {
        let mut sieve = Sieve::new(alloc, Limits::eggdrop()).expect(&rt, "memory");
        // The joins of the first line are the most that a channel's limit allows.
        for _time in 0..if i == 0 { 5 } else { 20 } {
            let sifted = sieve.sift(alloc, lines, 100, &Ann).expect(&rt, "memory");
            assert!(rt; sifted.bytes.as_slice() == *lines);
            assert!(rt; sifted.begun == 0);
        }
        assert!(rt; sieve.ignores().is_empty());
    }
}

#[test]
fn a_limit_ends_with_its_window(rt: HostRuntime) {
    let alloc = rt.alloc();
    let mut sieve = Sieve::new(alloc, Limits::eggdrop()).expect(&rt, "memory");
    let lines = b":bob!b@h KICK #egg ann\n:bob!b@h KICK #egg cat\n".as_slice();
    for (now, begun) in [(100_u16, 0), (110, 0), (119, 1), (720, 0)] {
        let now = u64::from(now);
        let sifted = sieve.sift(alloc, lines, now, &Ann).expect(&rt, "memory");
        assert!(rt; sifted.bytes.as_slice() == lines);
        assert!(rt; sifted.begun == begun);
    }
}

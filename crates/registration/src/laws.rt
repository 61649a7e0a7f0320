// What holds of every registration, whatever the server says.
ghost use Rattle.std.specs.Prelude.{◌≡◌, ◌≤◌, Bool, true, false, List};
ghost use Rattle.registration.specs.declared.capabilities.Capabilities.{Capabilities};
ghost use Rattle.registration.specs.declared.registration_event.RegistrationEvent.{RegistrationEvent};
ghost use Rattle.registration.specs.declared.mechanism.Mechanism.{Mechanism};
ghost use Rattle.registration.specs.declared.mechanism.Mechanism.TheVariants.{Plain};
ghost use Rattle.registration.specs.declared.mechanism.Mechanisms.{Mechanisms};
ghost use Rattle.registration.specs.declared.negotiation.Negotiation.{Negotiation};
ghost use Rattle.registration.specs.Runs.{count_of, is_end, is_final_taken, is_first, is_logged_in, is_name_of, is_plain, run};
ghost use Rattle.registration.specs.Steps.{begun_with};
ghost use Rattle.std.specs.Prelude.{Some, is_some};
ghost use Rattle.ircline.specs.declared.line.Line.{Line};
ghost use Rattle.registration.specs.declared.credentials.Credentials.{Credentials};
ghost use Rattle.registration.specs.declared.registration_event.RegistrationEvent.TheVariants.{FinalTaken};
ghost use Rattle.registration.specs.declared.registration_event.Say.{Say};
ghost use Rattle.registration.specs.declared.hearing.Work.{Work};
ghost use Rattle.registration.specs.declared.registration.ScramNonces.{ScramNonces};
ghost use Rattle.registration.specs.declared.registration.Wish.{Wish};
ghost use Rattle.registration.specs.declared.scram_hash.ScramHash.{ScramHash};
ghost use Rattle.registration.specs.Hearings.{hearing_of};
ghost use Rattle.registration.specs.Registrations.{begun_by, lines_of};
ghost use Rattle.registration.specs.Talks.{IsShown, Turn, after, all_said, brings_success, is_end_line};

/// States what a registration says, by the definition that [`Negotiation::step`](crate::Negotiation::step) follows:
/// `run` is all that a client says while it hears these things, one after the other.
///
/// - The client ends the negotiation at most once.
/// - A client that is to log in ends it only after it has heard that the login succeeded.
/// - A client that is to log in by SCRAM alone ends it only after it has taken the server's final message.
/// - It names each mechanism at most once, and uses each nonce at most once.
/// - It says the password itself only by PLAIN, and PLAIN only on a private connection.
pub fn laws_of_a_registration()
    ensures once { (n : Negotiation) (heard : List RegistrationEvent) → count_of is_end (run n heard) ≤ 1 }
    ensures after_login { (n : Negotiation) (heard : List RegistrationEvent) → n.wants_account ≡ true → count_of is_logged_in heard ≡ 0
        → count_of is_end (run n heard) ≡ 0 }
    ensures after_final { (allowed : Mechanisms) (is_private : Bool) (wanted : Capabilities) (heard : List RegistrationEvent)
        → allowed.external ≡ false → allowed.plain ≡ false → count_of is_final_taken heard ≡ 0
        → count_of is_end (run (begun_with true allowed is_private wanted) heard) ≡ 0 }
    ensures each_once { (mechanism : Mechanism) (n : Negotiation) (heard : List RegistrationEvent)
        → count_of (is_name_of mechanism) (run n heard) ≤ 1 }
    ensures nonce_once { (hash : ScramHash) (wants : Bool) (allowed : Mechanisms) (is_private : Bool) (wanted : Capabilities)
        (heard : List RegistrationEvent) → count_of (is_first hash) (run (begun_with wants allowed is_private wanted) heard) ≤ 1 }
    ensures open_plain { (wants : Bool) (allowed : Mechanisms) (wanted : Capabilities) (heard : List RegistrationEvent)
        → count_of is_plain (run (begun_with wants allowed false wanted) heard) ≡ 0 }
    ensures open_name { (wants : Bool) (allowed : Mechanisms) (wanted : Capabilities) (heard : List RegistrationEvent)
        → count_of (is_name_of Plain) (run (begun_with wants allowed false wanted) heard) ≡ 0 }
{}

/// States what the lines of a whole registration are, by the definitions that [`Registration`](crate::Registration)
/// follows, whatever the server says and whenever the client does its iterations.
///
/// - Among them is `CAP END` at most once.
/// - If an account is wanted, `CAP END` is among them only after a line 903 of the server.
pub fn laws_of_the_lines()
    ensures once { (wish : Wish) (nonces : ScramNonces) (turns : List Turn)
        → count_of is_end_line (all_said (begun_by wish nonces) turns) ≤ 1 }
    ensures after_login { (wish : Wish) (nonces : ScramNonces) (turns : List Turn) → is_some wish.account ≡ true
        → count_of brings_success turns ≡ 0 → count_of is_end_line (all_said (begun_by wish nonces) turns) ≡ 0 }
{}

/// States what a login is worth, by the definitions that [`Registration`](crate::Registration) follows.
///
/// - Whatever a client has heard, and whenever it did its iterations: it takes a server's final message only if the server
///   has shown that it knows the password, by the whole signature of an exchange with the client's own nonce and with
///   iterations within the limits.
/// - For the same work, no line but those of PLAIN depends on the password. The work has it only through the proof of RFC
///   5802.
pub fn laws_of_a_login()
    ensures shown { (wish : Wish) (nonces : ScramNonces) (turns : List Turn) (line : Line)
        → (hearing_of (after (begun_by wish nonces) turns) line).heard ≡ FinalTaken → IsShown (after (begun_by wish nonces) turns) }
    ensures password { (a b : Credentials) (nonces : ScramNonces) (kept : Work) (said : Say) → a.name ≡ b.name → is_plain said ≡ false
        → lines_of (Some a) nonces kept said ≡ lines_of (Some b) nonces kept said }
{}

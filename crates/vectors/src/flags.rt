// Flag expressions.
use bytetext::Text;
use caselines::{BAD_WORDS, CaseError, Sink};
use flagexpr::{FlagExpr, FlagFault, Flags};

/// Answers `flags EXPR GLOBAL CHAN BOT` on `out`: whether these flags meet the expression, or the code of the first
/// word that is refused.
pub fn met(words: &[Text], out: &mut Sink) -> Result<(), CaseError> {
    let [expression, global, chan, bot] = words else {
        return Err(BAD_WORDS);
    };
    match meets(expression, global, chan, bot) {
        Ok(true) => out.put(b"met"),
        Ok(false) => out.put(b"not met"),
        Err(fault) => out.put(fault.code().as_bytes()),
    }
    Ok(())
}

fn meets(expression: &Text, global: &Text, chan: &Text, bot: &Text) -> Result<bool, FlagFault> {
    let expression = FlagExpr::parse(expression.as_bytes())?;
    let global = Flags::parse(global.as_bytes())?;
    let chan = Flags::parse(chan.as_bytes())?;
    let bot = Flags::parse(bot.as_bytes())?;
    Ok(expression.meets(global, chan, bot))
}

// The userfile of a case.
use bytetext::Text;
use caselines::{BAD_WORDS, CaseError};
use std::alloc::Global;
use userfile::{ChangeError, ChangeFault, Userfile};

/// Makes the changes in `words`, one a word, up to the first that is refused. Returns that one's fault, if there is
/// one.
pub fn make_all(
    alloc: Global,
    userfile: &mut Userfile,
    words: &[Text],
) -> Result<Option<ChangeFault>, CaseError> {
    for word in words {
        let fault = make(alloc, userfile, word.as_bytes())?;
        if fault.is_some() {
            return Ok(fault);
        }
    }
    Ok(None)
}

fn make(
    alloc: Global,
    userfile: &mut Userfile,
    word: &[u8],
) -> Result<Option<ChangeFault>, CaseError> {
    let Some(change) = recordtext::change_of(alloc, word)? else {
        return Err(BAD_WORDS);
    };
    match userfile.apply(alloc, &change) {
        Ok(()) => Ok(None),
        Err(ChangeError::Refused(fault)) => Ok(Some(fault)),
        Err(ChangeError::NoMemory) => Err(CaseError::NoMemory),
    }
}

//! Calls and answers, as tables of tests write them.

use ms_base::Bytes;
use ms_link::{LinkError, Texts};

/// A call on a link.
#[derive(Clone, Copy)]
pub enum Call<'a> {
    /// A text of one byte, to the list of this number.
    Append(u32, u8),
    /// The list of this number, from a place on.
    List(u32, u64),
    /// A text in this generation, under the one name of the tables.
    Put(u32, &'a [u8]),
    Has(u32),
    Get(u32),
    /// The generations below this one are dropped.
    Drop(u32),
}

/// What the call answers.
#[derive(Clone, Copy)]
pub enum Answer<'a> {
    Done,
    Failed,
    /// Below this floor.
    Stale(u32),
    Yes,
    No,
    /// A text that was got; of a list, the bytes of its texts in a row.
    Gives(&'a [u8]),
    Nothing,
}

/// Whether the error is the one that is expected.
fn is_error(error: LinkError, expected: Answer<'_>) -> bool {
    match (error, expected) {
        (LinkError::Failed, Answer::Failed) => true,
        (LinkError::Stale { floor }, Answer::Stale(below)) => floor == below,
        _ => false,
    }
}

/// Whether a change was answered so.
pub fn is_done(answer: Result<(), LinkError>, expected: Answer<'_>) -> bool {
    match answer {
        Ok(()) => matches!(&expected, Answer::Done),
        Err(error) => is_error(error, expected),
    }
}

/// Whether a look was answered so.
pub fn is_seen(answer: Result<bool, LinkError>, expected: Answer<'_>) -> bool {
    match answer {
        Ok(true) => matches!(&expected, Answer::Yes),
        Ok(false) => matches!(&expected, Answer::No),
        Err(error) => is_error(error, expected),
    }
}

/// Whether a text was answered so.
pub fn is_got(answer: Result<Option<Bytes>, LinkError>, expected: Answer<'_>) -> bool {
    match answer {
        Ok(Some(text)) => gives(text.as_slice(), expected),
        Ok(None) => matches!(&expected, Answer::Nothing),
        Err(error) => is_error(error, expected),
    }
}

/// Whether a list was answered so.
pub fn is_listed(answer: Result<Texts, LinkError>, expected: Answer<'_>) -> bool {
    match answer {
        Ok(texts) => are_joined(&texts, expected),
        Err(error) => is_error(error, expected),
    }
}

fn gives(text: &[u8], expected: Answer<'_>) -> bool {
    match expected {
        Answer::Gives(bytes) => text == bytes,
        _ => false,
    }
}

/// Whether the texts have one byte each, and these in a row.
fn are_joined(texts: &Texts, expected: Answer<'_>) -> bool {
    let Answer::Gives(bytes) = expected else {
        return false;
    };
    let texts = texts.as_slice();
    texts.len() == bytes.len()
        && texts
            .iter()
            .zip(bytes.iter())
            .all(|(text, byte)| text.as_slice() == [*byte].as_slice())
}

//! How a case says that the index stands in threads and in order.

use case_files::CaseFault;
use index_order::Sort;
use index_view::ViewOptions;
use mail_base::behind_text;
use threads::ThreadOptions;

/// What no word of a case's settings says.
const PLAIN: ViewOptions = ViewOptions {
    threads: ThreadOptions {
        strict: false,
        reply_only: false,
        duplicates: false,
    },
    sort: Sort::DateSent,
    reverse: false,
    aux: Sort::DateSent,
    aux_reverse: false,
    aux_last: false,
};

/// The settings of words: `strict`, `reply_only`, `duplicates`, `sort=` and `aux=`.
pub fn options_of(text: &[u8]) -> Result<ViewOptions, CaseFault> {
    let mut options = PLAIN;
    for word in text
        .split(|byte| *byte == b' ')
        .filter(|word| !word.is_empty())
    {
        put_word(&mut options, word)?;
    }
    Ok(options)
}

fn put_word(options: &mut ViewOptions, word: &[u8]) -> Result<(), CaseFault> {
    match word {
        b"strict" => options.threads.strict = true,
        b"reply_only" => options.threads.reply_only = true,
        b"duplicates" => options.threads.duplicates = true,
        _ => put_sort(options, word)?,
    }
    Ok(())
}

fn put_sort(options: &mut ViewOptions, word: &[u8]) -> Result<(), CaseFault> {
    if let Some(value) = behind_text(b"sort=", word) {
        let (reverse, name) = behind_prefix(value, b"reverse-");
        options.reverse = reverse;
        options.sort = sort_named(name)?;
        return Ok(());
    }
    let Some(value) = behind_text(b"aux=", word) else {
        return Err(CaseFault::BadInput);
    };
    let (reverse, rest) = behind_prefix(value, b"reverse-");
    let (last, name) = behind_prefix(rest, b"last-");
    options.aux_reverse = reverse;
    options.aux_last = last;
    options.aux = sort_named(name)?;
    Ok(())
}

// Whether a prefix stands there, and what stands behind it.
fn behind_prefix<'a>(value: &'a [u8], prefix: &[u8]) -> (bool, &'a [u8]) {
    match behind_text(prefix, value) {
        Some(rest) => (true, rest),
        None => (false, value),
    }
}

fn sort_named(name: &[u8]) -> Result<Sort, CaseFault> {
    match name {
        b"date" | b"date-sent" => Ok(Sort::DateSent),
        b"date-received" => Ok(Sort::DateReceived),
        b"from" => Ok(Sort::From),
        b"mailbox-order" => Ok(Sort::MailboxOrder),
        b"score" => Ok(Sort::Score),
        b"size" => Ok(Sort::Size),
        b"subject" => Ok(Sort::Subject),
        b"threads" => Ok(Sort::Threads),
        b"to" => Ok(Sort::To),
        _ => Err(CaseFault::BadInput),
    }
}

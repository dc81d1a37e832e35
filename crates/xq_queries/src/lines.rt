//! Line ends (XQuery 3.1, appendix A.2.3).
ghost use Rattle.std.specs.Prelude.{◌≡◌, IfOk, MatchOption, string_bytes};
ghost use Rattle.xq_queries.specs.Texts.{with_line_feeds as with_line_feeds_lem};
ghost use Rattle.xq_queries.specs.private.Lines.{IsFirstLine};

use std::alloc::{AllocError, Global};

/// The text with its line ends read: a line feed stands for a carriage return with a line feed
/// after it, and for one alone.
pub fn with_line_feeds(alloc: Global, text: &str) -> Result<String, AllocError>
    ensures { IfOk result (λ read. string_bytes read ≡ with_line_feeds_lem text.now) }
{
    let mut read = String::new(alloc);
    let mut rest = text;
    while let Some((line, others)) = first_line(rest) {
        read.push_str(line)?;
        read.push_str("\n")?;
        rest = others;
    }
    read.push_str(rest)?;
    Ok(read)
}

/// The text before its first carriage return, and what follows the line end there.
fn first_line(text: &str) -> Option<(&str, &str)>
    ensures { MatchOption result (with_line_feeds_lem text.now ≡ text.now)
        (λ parts. IsFirstLine text.now parts.0.now parts.1.now) }
{
    let (line, after) = text.split_once('\r')?;
    Some((line, after.strip_prefix('\n').unwrap_or(after)))
}

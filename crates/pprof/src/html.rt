//! The page that shows a profile in a browser.
ghost use Rattle.std.specs.Prelude.{IfOk};
ghost use Rattle.std.specs.String.{string_bytes};
ghost use Rattle.pprof.specs.Pages.{Embeds};

mod page;

use base64::engine::general_purpose::STANDARD;
use page::{BEFORE, BODY, COUNTS, END, START, STYLE, TIMES};
use std::alloc::{AllocError, Global};

// Returns the bytes of a profile in base64 between two texts.
fn page_between(alloc: Global, start: &str, profile: &[u8], end: &str) -> Result<String, AllocError>
    ensures { IfOk result (λ page. Embeds profile.now (string_bytes page)) }
{
    let mut page = String::new(alloc);
    page.push_str(start)?;
    STANDARD.encode_string(profile, &mut page)?;
    page.push_str(end)?;
    Ok(page)
}

// Returns the end of a page, with the bytes of its samples and those of an old profile in base64.
fn page_end(alloc: Global, times: &[u8], old: OldProfile<'_>) -> Result<String, AllocError> {
    let mut end = String::new(alloc);
    end.push_str(TIMES)?;
    STANDARD.encode_string(times, &mut end)?;
    end.push_str(COUNTS)?;
    end.push_str(if old.is_scaled { "scaled" } else { "recorded" })?;
    end.push_str(BEFORE)?;
    STANDARD.encode_string(old.profile, &mut end)?;
    end.push_str(END)?;
    Ok(end)
}

/// What a page says of its profile, as text of HTML, in which `<`, `>`, `&` and quotes are escaped.
#[derive(Clone, Copy)]
pub struct PageTexts<'a> {
    /// The title.
    pub title: &'a str,
    /// The heading.
    pub heading: &'a str,
}

/// The profile that the one of a page is compared with.
#[derive(Clone, Copy)]
pub struct OldProfile<'a> {
    /// Its bytes, or none if there is no comparison.
    pub profile: &'a [u8],
    /// Whether what it counts is shown as if its total were that of the page's profile.
    pub is_scaled: bool,
}

impl OldProfile<'static> {
    /// No profile.
    pub const NONE: OldProfile<'static> = OldProfile {
        profile: &[],
        is_scaled: false,
    };
}

/// Returns a page that shows a profile, whose bytes [`encode`](crate::encode::encode) returns, and how it
/// differs from an old one. `times` has its samples in order, if they are known. The page loads nothing else.
///
/// Fails if memory runs out.
pub fn profile_page(
    alloc: Global,
    texts: PageTexts<'_>,
    profile: &[u8],
    times: &[u8],
    old: OldProfile<'_>,
) -> Result<String, AllocError>
    ensures { IfOk result (λ page. Embeds profile.now (string_bytes page)) }
{
    let mut start = String::new(alloc);
    for part in [START, texts.title, STYLE, texts.heading, BODY] {
        start.push_str(part)?;
    }
    let end = page_end(alloc, times, old)?;
    page_between(alloc, start.as_str(), profile, end.as_str())
}

//! Patterns for the names of events.

// The letters of perf's modifiers of events.
const MODIFIERS: &[u8] = b"ukhGHpPSDIWe";

// Returns the name of an event before its modifiers, if it has some.
fn without_modifiers(name: &str) -> Option<&str> {
    let (before, modifiers) = name.split_once(':')?;
    let are_modifiers = modifiers.bytes().all(|letter| MODIFIERS.contains(&letter));
    if are_modifiers && !modifiers.is_empty() {
        Some(before)
    } else {
        None
    }
}

// Returns whether a pattern matches a text: `*` stands for any bytes, `?` for one.
fn matches(pattern: &[u8], text: &[u8]) -> bool {
    let (mut at, mut position) = (0usize, 0usize);
    // What follows the last star, and where the text may continue after it.
    let mut retry: Option<(usize, usize)> = None;
    let steps = pattern
        .len()
        .saturating_add(1)
        .saturating_mul(text.len().saturating_add(1));
    for _ in 0..steps {
        match (pattern.get(at).copied(), text.get(position).copied()) {
            (None, None) => return true,
            (Some(b'*'), _) => {
                at = at.saturating_add(1);
                retry = Some((at, position));
            }
            (Some(wanted), Some(found)) if wanted == b'?' || wanted == found => {
                at = at.saturating_add(1);
                position = position.saturating_add(1);
            }
            _ => {
                let Some((after, start)) = retry else {
                    return false;
                };
                if start >= text.len() {
                    return false;
                }
                at = after;
                position = start.saturating_add(1);
                retry = Some((after, position));
            }
        }
    }
    false
}

/// Returns whether a part of the value of `--event` selects the event with an index: it is the index, or a
/// pattern for the name of the event, with or without its modifiers.
pub(crate) fn selects_event(part: &str, index: usize, name: &str) -> bool {
    if !part.is_empty() && part.bytes().all(|byte| byte.is_ascii_digit()) {
        return part.parse::<usize>().ok() == Some(index);
    }
    let pattern = part.as_bytes();
    matches(pattern, name.as_bytes())
        || without_modifiers(name).is_some_and(|name| matches(pattern, name.as_bytes()))
}

//! What a start tag is reported under.

/// The id that a selector was added under.
pub type MatchId = u32;

/// An id that a start tag is reported under, and whether its element has content.
#[derive(Debug, Clone, Copy, PartialEq, Eq)]
pub struct MatchInfo {
    pub match_id: MatchId,
    pub with_content: bool,
}

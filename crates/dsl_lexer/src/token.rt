use crate::TokenKind;
use site_base::Place;

/// A token with the place of its first byte.
#[derive(Drop)]
pub struct Token {
    pub place: Place,
    pub kind: TokenKind,
}

//! Texts of descriptions that tests share.
use std::alloc::{AllocError, Global};

/// The description that the expressions of sums have, with a line feed at its end.
pub const SUMS: [u8; 342] = *b"grammar
  P = [[ E ]] .
  E = [[ E \"+\" E ]] | [[ numeral ]] .
semantics
  run _ : P .
  evaluate _ : E .
  run [[ X:E ]] = evaluate X then send the given integer .
  evaluate [[ X:E \"+\" Y:E ]] = (evaluate X and evaluate Y) then
    give sum(the given integer # 1, the given integer # 2) .
  evaluate [[ N:numeral ]] = give value of N .
end .
";

/// That description with the new text in place of the first of the old one.
pub fn sums_with(alloc: Global, old: &[u8], new: &[u8]) -> Result<Vec<u8>, AllocError> {
    let mut text = Vec::new(alloc);
    for at in 0..SUMS.len() {
        let (front, rest) = SUMS.split_at(at);
        if let Some(behind) = rest.strip_prefix(old) {
            text.extend_from_slice(front)?;
            text.extend_from_slice(new)?;
            text.extend_from_slice(behind)?;
            return Ok(text);
        }
    }
    Ok(text)
}

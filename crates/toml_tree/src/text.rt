//! The document that bytes are.
ghost use Rattle.std.specs.Prelude.{◌≡◌, IfOk, option_map};
ghost use Rattle.toml.specs.View.{table_view};
ghost use Rattle.toml_tree.specs.Document.{document_of};

use std::alloc::{AllocError, Global};
use toml::Table;

/// The top table of a document, if the bytes are one. AllocError comes where memory is lacking.
pub fn document(alloc: Global, text: &[u8]) -> Result<Option<Table>, AllocError>
    ensures { IfOk result (λ found. option_map table_view found ≡ document_of text.now) }
{
    match toml::table_from_slice(alloc, text) {
        Ok(table) => Ok(Some(table)),
        Err(e) => {
            if e.is_memory() {
                Err(AllocError)
            } else {
                Ok(None)
            }
        }
    }
}

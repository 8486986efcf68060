//! Serial numbers of documents.

ghost use Rattle.std.specs.Prelude.{◌≡◌, IfOk, string_bytes};
ghost use Rattle.uuid.specs.Text.{urn_text, lower};
ghost use Rattle.cyclonedx.specs.Serials.{name_based};

use std::alloc::{AllocError, Global};
use uuid::Uuid;

/// The name space in which serial numbers are made. It is itself a version 5 UUID: that of the URL of the schema,
/// `http://cyclonedx.org/schema/bom-1.5.schema.json`, in the name space of URLs.
pub const NAME_SPACE: [u8; 16] = [
    0x53, 0x9f, 0x76, 0xe6, 0xc7, 0xf8, 0x5d, 0xf1, 0xad, 0x32, 0xf0, 0xa0, 0x8c, 0x83, 0x38, 0x54,
];

/// Returns the serial number of a document with this content: a URN of a version 5 UUID, so that the same content has
/// the same number. Fails if memory is refused.
pub fn serial_number(alloc: Global, content: &str) -> Result<String, AllocError>
    // The name is the whole content.
    ensures { IfOk result (λ text. string_bytes text ≡ urn_text lower (name_based NAME_SPACE content.now)) }
{
    let id = Uuid::new_v5(&Uuid::from_bytes(NAME_SPACE), content.as_bytes());
    let mut buffer = Uuid::encode_buffer();
    String::from_str(alloc, id.urn().encode_lower(&mut buffer))
}

// How long a tag image is by what it says: a well-known record, a MIME record, a URI, a text.
#![tactic(auto)]

ghost use Rattle.std.specs.Prelude.{◌≡◌};
ghost use Rattle.layout.specs.Lengths.{sat, image_len, uri_payload_len, text_payload_len};

use lengths::image_len_for;

// A well-known record, whose type name is one byte.
pub fn record_image_len(payload: usize) -> usize
    ensures { result ≡ sat (image_len 1 payload) }
{
    image_len_for(1, payload)
}

// A MIME record.
pub fn mime_image_len(mime_len: usize, payload: usize) -> usize
    ensures { result ≡ sat (image_len mime_len payload) }
{
    image_len_for(mime_len, payload)
}

// A URI of `uri_len` bytes after its prefix byte.
pub fn image_len(uri_len: usize) -> usize
    ensures { result ≡ sat (image_len 1 (uri_payload_len uri_len)) }
{
    record_image_len(uri_len.saturating_add(1))
}

// A text of `text_len` bytes, in English.
pub fn text_image_len(text_len: usize) -> usize
    ensures { result ≡ sat (image_len 1 (text_payload_len text_len)) }
{
    record_image_len(text_len.saturating_add(3))
}

// Reading for C: each export is the function of `skipnadur::reading` that has its name, with the same clauses.
ghost use Rattle.std.specs.Prelude.{◌≡◌, length, is_some};
ghost use Rattle.blocks.specs.Read.{read_of, number_of};
ghost use Rattle.pieces.specs.Parts.{is_of};
ghost use Rattle.walk.specs.Step.{start_of};
ghost use Rattle.cursors.specs.Lent.{entry_of, moved};
ghost use Rattle.uri.specs.Prefixes.{prefix_answer};
ghost use Rattle.contents.specs.Contents.{text_of};
ghost use Rattle.links.specs.Links.{uri_of};
ghost use Rattle.plain.specs.Reading.{cursor_of, cursor_numbers, record_of, entry_number, entry_places, yes};
ghost use Rattle.places.specs.Places.{part_number, part_numbers, kind_part, id_part, payload_part};
ghost use Rattle.says.specs.Says.{link_number, link_numbers, in_row, row_len};
ghost use Rattle.messages.specs.Messages.{message_of, padded};

#[unsafe(no_mangle)]
pub extern "C" fn skp_read(image: &[u8], cursor: &mut [usize; 2]) -> u32
    ensures { (result ≡ number_of (read_of image.now)) × (cursor.new ≡ cursor_numbers (start_of (read_of image.now))) }
{
    skipnadur::reading::skp_read(image, cursor)
}

#[unsafe(no_mangle)]
pub extern "C" fn skp_next(image: &[u8], cursor: &mut [usize; 2], places: &mut [usize; 6]) -> u32
    ensures value { result ≡ entry_number (entry_of image.now (cursor_of cursor.old)) }
    ensures cursor_after { cursor.new ≡ cursor_numbers (moved image.now (cursor_of cursor.old)) }
    ensures places_after { places.new ≡ entry_places (entry_of image.now (cursor_of cursor.old)) }
{
    skipnadur::reading::skp_next(image, cursor, places)
}

#[unsafe(no_mangle)]
pub extern "C" fn skp_kind(image: &[u8], places: &[usize; 6], part: &mut [usize; 2]) -> u32
    ensures { (result ≡ part_number (kind_part image.now (record_of places.now))) × (part.new ≡ part_numbers (kind_part image.now (record_of places.now))) }
{
    skipnadur::reading::skp_kind(image, places, part)
}

#[unsafe(no_mangle)]
pub extern "C" fn skp_id(image: &[u8], places: &[usize; 6], part: &mut [usize; 2]) -> u32
    ensures { (result ≡ part_number (id_part image.now (record_of places.now))) × (part.new ≡ part_numbers (id_part image.now (record_of places.now))) }
{
    skipnadur::reading::skp_id(image, places, part)
}

#[unsafe(no_mangle)]
pub extern "C" fn skp_payload(image: &[u8], places: &[usize; 6], part: &mut [usize; 2]) -> u32
    ensures { (result ≡ part_number (payload_part image.now (record_of places.now))) × (part.new ≡ part_numbers (payload_part image.now (record_of places.now))) }
{
    skipnadur::reading::skp_payload(image, places, part)
}

#[unsafe(no_mangle)]
pub extern "C" fn skp_text(image: &[u8], places: &[usize; 6], part: &mut [usize; 2]) -> u32
    ensures { (result ≡ part_number (text_of image.now (record_of places.now))) × (part.new ≡ part_numbers (text_of image.now (record_of places.now))) }
{
    skipnadur::reading::skp_text(image, places, part)
}

#[unsafe(no_mangle)]
pub extern "C" fn skp_uri(image: &[u8], places: &[usize; 6], values: &mut [usize; 3]) -> u32
    ensures { (result ≡ link_number (uri_of image.now (record_of places.now))) × (values.new ≡ link_numbers (uri_of image.now (record_of places.now))) }
{
    skipnadur::reading::skp_uri(image, places, values)
}

#[unsafe(no_mangle)]
pub extern "C" fn skp_uri_prefix(code: u8, prefix: &mut [u8; 26], len: &mut usize) -> u32
    ensures value { result ≡ yes (is_some (prefix_answer code)) }
    ensures prefix_after { prefix.new ≡ in_row (prefix_answer code) }
    ensures len_after { len.new ≡ row_len (prefix_answer code) }
{
    skipnadur::reading::skp_uri_prefix(code, prefix, len)
}

#[unsafe(no_mangle)]
pub extern "C" fn skp_is(image: &[u8], places: &[usize; 6], name: u8) -> u32
    ensures { result ≡ yes (is_of image.now (record_of places.now) name) }
{
    skipnadur::reading::skp_is(image, places, name)
}

#[unsafe(no_mangle)]
pub extern "C" fn skp_message(number: u32, text: &mut [u8; 64]) -> u32
    ensures { (result ≡ length (message_of number)) × (text.new ≡ padded 64 (message_of number)) }
{
    skipnadur::reading::skp_message(number, text)
}

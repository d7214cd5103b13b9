// Images for C: each export is the function of `skipnadur::images` that has its name, with the same clauses.
ghost use Rattle.std.specs.Prelude.{◌≡◌, ◌%◌, length};
ghost use Rattle.layout.specs.Lengths.{sat, image_len, uri_payload_len, text_payload_len};
ghost use Rattle.layout.specs.Container.{container_answer, container_bytes, read_only};
ghost use Rattle.layout.specs.Numbers.{verdict_number};
ghost use Rattle.layout.specs.Image.{empty_image, text_image, uri_image, mime_image};
ghost use Rattle.scan.specs.Zeros.{high_water};
ghost use Rattle.judging.specs.Judge.{verdict, checks};
ghost use Rattle.opens.specs.Opens.{open_bytes};
ghost use Rattle.begins.specs.Begins.{begin_bytes, begin_text_bytes};
ghost use Rattle.closes.specs.Closes.{finish_answer, finish_after};
ghost use Rattle.image.specs.Builds.{text_verdict, uri_verdict};
ghost use Rattle.mime.specs.Mime.{mime_verdict};
ghost use Rattle.empty.specs.Empty.{empty_verdict};
ghost use Rattle.tells.specs.Builds.{Tells, Builds};

#[unsafe(no_mangle)]
pub extern "C" fn skp_image_len_for(kind_len: usize, payload: usize) -> usize
    ensures { result ≡ sat (image_len kind_len payload) }
{
    skipnadur::images::skp_image_len_for(kind_len, payload)
}

#[unsafe(no_mangle)]
pub extern "C" fn skp_record_image_len(payload: usize) -> usize
    ensures { result ≡ sat (image_len 1 payload) }
{
    skipnadur::images::skp_record_image_len(payload)
}

#[unsafe(no_mangle)]
pub extern "C" fn skp_mime_image_len(mime_len: usize, payload: usize) -> usize
    ensures { result ≡ sat (image_len mime_len payload) }
{
    skipnadur::images::skp_mime_image_len(mime_len, payload)
}

#[unsafe(no_mangle)]
pub extern "C" fn skp_image_len(uri_len: usize) -> usize
    ensures { result ≡ sat (image_len 1 (uri_payload_len uri_len)) }
{
    skipnadur::images::skp_image_len(uri_len)
}

#[unsafe(no_mangle)]
pub extern "C" fn skp_text_image_len(text_len: usize) -> usize
    ensures { result ≡ sat (image_len 1 (text_payload_len text_len)) }
{
    skipnadur::images::skp_text_image_len(text_len)
}

#[unsafe(no_mangle)]
pub extern "C" fn skp_high_water(image: &[u8]) -> usize
    ensures { result ≡ high_water image.now }
{
    skipnadur::images::skp_high_water(image)
}

#[unsafe(no_mangle)]
pub extern "C" fn skp_capability_container(area: usize, container: &mut [u8; 8]) -> u32
    ensures { (result ≡ verdict_number (container_answer area)) × (container.new ≡ container_bytes (container_answer area)) }
{
    skipnadur::images::skp_capability_container(area, container)
}

#[unsafe(no_mangle)]
pub extern "C" fn skp_set_read_only(image: &mut [u8])
    ensures { image.new ≡ read_only image.old }
{
    skipnadur::images::skp_set_read_only(image);
}

#[unsafe(no_mangle)]
pub extern "C" fn skp_open(
    out: &mut [u8],
    area: usize,
    tnf: u8,
    kind: &[u8],
    payload: usize,
    values: &mut [usize; 2],
) -> u32
    ensures { Builds (verdict (checks (length out.old) area (length kind.now) payload)) (open_bytes area (tnf % 8) kind.now payload) out.old result values.new out.new }
{
    skipnadur::images::skp_open(out, area, tnf, kind, payload, values)
}

#[unsafe(no_mangle)]
pub extern "C" fn skp_begin(
    out: &mut [u8],
    area: usize,
    uri_len: usize,
    prefix: u8,
    values: &mut [usize; 2],
) -> u32
    ensures { Builds (verdict (checks (length out.old) area 1 (uri_payload_len uri_len))) (begin_bytes area prefix uri_len) out.old result values.new out.new }
{
    skipnadur::images::skp_begin(out, area, uri_len, prefix, values)
}

#[unsafe(no_mangle)]
pub extern "C" fn skp_begin_text(
    out: &mut [u8],
    area: usize,
    text_len: usize,
    values: &mut [usize; 2],
) -> u32
    ensures { Builds (verdict (checks (length out.old) area 1 (text_payload_len text_len))) (begin_text_bytes area text_len) out.old result values.new out.new }
{
    skipnadur::images::skp_begin_text(out, area, text_len, values)
}

#[unsafe(no_mangle)]
pub extern "C" fn skp_begin_mime(
    out: &mut [u8],
    area: usize,
    mime: &[u8],
    payload_len: usize,
    values: &mut [usize; 2],
) -> u32
    ensures { Builds (verdict (checks (length out.old) area (length mime.now) payload_len)) (open_bytes area 2 mime.now payload_len) out.old result values.new out.new }
{
    skipnadur::images::skp_begin_mime(out, area, mime, payload_len, values)
}

#[unsafe(no_mangle)]
pub extern "C" fn skp_finish(out: &mut [u8], at: usize, values: &mut [usize; 2]) -> u32
    ensures { Tells (finish_answer (length out.old) at) (finish_after out.old at) result values.new out.new }
{
    skipnadur::images::skp_finish(out, at, values)
}

#[unsafe(no_mangle)]
pub extern "C" fn skp_uri_image(
    out: &mut [u8],
    area: usize,
    uri: &[u8],
    prefix: u8,
    values: &mut [usize; 2],
) -> u32
    ensures { Builds (uri_verdict (length out.old) area prefix uri.now) (uri_image area prefix uri.now) out.old result values.new out.new }
{
    skipnadur::images::skp_uri_image(out, area, uri, prefix, values)
}

#[unsafe(no_mangle)]
pub extern "C" fn skp_text_image(
    out: &mut [u8],
    area: usize,
    text: &[u8],
    values: &mut [usize; 2],
) -> u32
    ensures { Builds (text_verdict (length out.old) area text.now) (text_image area text.now) out.old result values.new out.new }
{
    skipnadur::images::skp_text_image(out, area, text, values)
}

#[unsafe(no_mangle)]
pub extern "C" fn skp_mime_image(
    out: &mut [u8],
    area: usize,
    mime: &[u8],
    payload: &[u8],
    values: &mut [usize; 2],
) -> u32
    ensures { Builds (mime_verdict (length out.old) area mime.now payload.now) (mime_image area mime.now payload.now) out.old result values.new out.new }
{
    skipnadur::images::skp_mime_image(out, area, mime, payload, values)
}

#[unsafe(no_mangle)]
pub extern "C" fn skp_empty_image(out: &mut [u8], area: usize, values: &mut [usize; 2]) -> u32
    ensures { Builds (empty_verdict (length out.old) area) (empty_image area) out.old result values.new out.new }
{
    skipnadur::images::skp_empty_image(out, area, values)
}

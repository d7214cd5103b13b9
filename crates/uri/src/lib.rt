// The URI prefixes that one byte stands for (NFC Forum URI Record Type Definition).
#![tactic(auto)]

ghost use Rattle.std.specs.Prelude.{◌≡◌, ◌≤◌, [], length, get_or, IfSome, option_copied};
ghost use Rattle.uri.specs.Prefixes.{entry, prefixes, prefix_answer};

// A row of the table: how many bytes a prefix has, and these with zeros after them. The longest has 26.
#[derive(Clone, Copy)]
pub struct Row(pub u8, pub [u8; 26]);

// The prefixes by their codes.
const PREFIXES: [Row; 36] = [
    Row(0, *b"\0\0\0\0\0\0\0\0\0\0\0\0\0\0\0\0\0\0\0\0\0\0\0\0\0\0"),
    Row(11, *b"http://www.\0\0\0\0\0\0\0\0\0\0\0\0\0\0\0"),
    Row(12, *b"https://www.\0\0\0\0\0\0\0\0\0\0\0\0\0\0"),
    Row(7, *b"http://\0\0\0\0\0\0\0\0\0\0\0\0\0\0\0\0\0\0\0"),
    Row(8, *b"https://\0\0\0\0\0\0\0\0\0\0\0\0\0\0\0\0\0\0"),
    Row(4, *b"tel:\0\0\0\0\0\0\0\0\0\0\0\0\0\0\0\0\0\0\0\0\0\0"),
    Row(7, *b"mailto:\0\0\0\0\0\0\0\0\0\0\0\0\0\0\0\0\0\0\0"),
    Row(26, *b"ftp://anonymous:anonymous@"),
    Row(10, *b"ftp://ftp.\0\0\0\0\0\0\0\0\0\0\0\0\0\0\0\0"),
    Row(7, *b"ftps://\0\0\0\0\0\0\0\0\0\0\0\0\0\0\0\0\0\0\0"),
    Row(7, *b"sftp://\0\0\0\0\0\0\0\0\0\0\0\0\0\0\0\0\0\0\0"),
    Row(6, *b"smb://\0\0\0\0\0\0\0\0\0\0\0\0\0\0\0\0\0\0\0\0"),
    Row(6, *b"nfs://\0\0\0\0\0\0\0\0\0\0\0\0\0\0\0\0\0\0\0\0"),
    Row(6, *b"ftp://\0\0\0\0\0\0\0\0\0\0\0\0\0\0\0\0\0\0\0\0"),
    Row(6, *b"dav://\0\0\0\0\0\0\0\0\0\0\0\0\0\0\0\0\0\0\0\0"),
    Row(5, *b"news:\0\0\0\0\0\0\0\0\0\0\0\0\0\0\0\0\0\0\0\0\0"),
    Row(9, *b"telnet://\0\0\0\0\0\0\0\0\0\0\0\0\0\0\0\0\0"),
    Row(5, *b"imap:\0\0\0\0\0\0\0\0\0\0\0\0\0\0\0\0\0\0\0\0\0"),
    Row(7, *b"rtsp://\0\0\0\0\0\0\0\0\0\0\0\0\0\0\0\0\0\0\0"),
    Row(4, *b"urn:\0\0\0\0\0\0\0\0\0\0\0\0\0\0\0\0\0\0\0\0\0\0"),
    Row(4, *b"pop:\0\0\0\0\0\0\0\0\0\0\0\0\0\0\0\0\0\0\0\0\0\0"),
    Row(4, *b"sip:\0\0\0\0\0\0\0\0\0\0\0\0\0\0\0\0\0\0\0\0\0\0"),
    Row(5, *b"sips:\0\0\0\0\0\0\0\0\0\0\0\0\0\0\0\0\0\0\0\0\0"),
    Row(5, *b"tftp:\0\0\0\0\0\0\0\0\0\0\0\0\0\0\0\0\0\0\0\0\0"),
    Row(8, *b"btspp://\0\0\0\0\0\0\0\0\0\0\0\0\0\0\0\0\0\0"),
    Row(10, *b"btl2cap://\0\0\0\0\0\0\0\0\0\0\0\0\0\0\0\0"),
    Row(9, *b"btgoep://\0\0\0\0\0\0\0\0\0\0\0\0\0\0\0\0\0"),
    Row(10, *b"tcpobex://\0\0\0\0\0\0\0\0\0\0\0\0\0\0\0\0"),
    Row(11, *b"irdaobex://\0\0\0\0\0\0\0\0\0\0\0\0\0\0\0"),
    Row(7, *b"file://\0\0\0\0\0\0\0\0\0\0\0\0\0\0\0\0\0\0\0"),
    Row(11, *b"urn:epc:id:\0\0\0\0\0\0\0\0\0\0\0\0\0\0\0"),
    Row(12, *b"urn:epc:tag:\0\0\0\0\0\0\0\0\0\0\0\0\0\0"),
    Row(12, *b"urn:epc:pat:\0\0\0\0\0\0\0\0\0\0\0\0\0\0"),
    Row(12, *b"urn:epc:raw:\0\0\0\0\0\0\0\0\0\0\0\0\0\0"),
    Row(8, *b"urn:epc:\0\0\0\0\0\0\0\0\0\0\0\0\0\0\0\0\0\0"),
    Row(8, *b"urn:nfc:\0\0\0\0\0\0\0\0\0\0\0\0\0\0\0\0\0\0"),
];

// The row of a code, and the empty one of code 0 for 36 to 255. (Not an `Option`: for a processor of 32 bits LLVM would not find the
// reference in it where the kit puts it.)
pub fn uri_row(code: u8) -> &'static Row
    ensures value { result.now ≡ entry (get_or prefixes code []) }
    ensures upper_bound { result.now.0 ≤ 26 }
{
    let at = usize::from(code);
    if at < 36 { &PREFIXES[at] } else { &PREFIXES[0] }
}

// The prefix of a code, without the zeros of its row: the 36 of the document, and none for 36 to 255.
#[tactic(auto, unfolding(crate::specs::Prefixes::prefix_answer))]
pub fn uri_prefix(code: u8) -> Option<&'static [u8]>
    ensures value { option_copied result ≡ prefix_answer code }
    ensures upper_bound { IfSome result (λ p. length p.now ≤ 26) }
{
    if code >= 36 {
        return None;
    }
    let Row(len, bytes) = uri_row(code);
    Some(&bytes[..usize::from(*len)])
}

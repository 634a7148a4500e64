//! Texts of endpoints, requests to them, and their replies.
use crate::rows::unescaped;
use http_target::{Endpoint, is_endpoint, read_reply};
use std::alloc::Global;
use std::test::Fail;
use test_rows::{all_met, three, two};

const ENDPOINTS: &str = "http://127.0.0.1:9000/x
http://localhost/
http://127.0.0.1
HTTP://LOCALHOST:80/a?b=c
http://127.1/
http://2130706433/
http://0x7f.0.0.1/
http://localhost:65535/?
http://localhost:0/
http://:@localhost/
http:\\\\127.0.0.1\\a
http://localhost/a b
\u{20}http://localhost/\u{20}
http://local\thost/
";

const OTHERS: &str = "
127.0.0.1
/x
https://127.0.0.1/
ftp://localhost/
http://127.0.0.2/
http://example.com/
http://[::1]/
http://localhost./
http://localhost.example/
http://user@localhost/
http://:password@localhost/
http://localhost/#
http://localhost/#a
http://localhost:65536/
http://localhost:x/
http://
arn:aws:sqs:us-east-1:111122223333:q
";

fn is_one(alloc: Global, text: &str) -> Result<bool, Fail> {
    Ok(is_endpoint(alloc, text)?)
}

fn is_none(alloc: Global, text: &str) -> Result<bool, Fail> {
    Ok(!is_endpoint(alloc, text)?)
}

#[test]
fn a_url_of_this_machine_is_an_endpoint(rt: HostRuntime) -> Result<(), Fail> {
    all_met(rt.alloc(), ENDPOINTS, 14, is_one)
}

#[test]
fn any_other_text_is_none(rt: HostRuntime) -> Result<(), Fail> {
    all_met(rt.alloc(), OTHERS, 18, is_none)
}

/// How many letters the path has, and whether the text is an endpoint. With 1,583 it has 1,600 bytes.
const LENGTHS: &str = "1583|true
1584|false
";

fn is_length_met(alloc: Global, row: &str) -> Result<bool, Fail> {
    let (letters, want) = two(row);
    let path = "a".repeat(alloc, letters.parse::<usize>()?)?;
    let path = path.as_str();
    let text = format!(in alloc; "http://localhost/{path}")?;
    let found = is_endpoint(alloc, text.as_str())?;
    Ok(format!(in alloc; "{found}")?.as_str() == want)
}

#[test]
fn the_text_of_an_endpoint_has_at_most_1600_bytes(rt: HostRuntime) -> Result<(), Fail> {
    all_met(rt.alloc(), LENGTHS, 2, is_length_met)
}

/// The URL of an endpoint, a text, and the request that sends the text there.
const REQUESTS: &str =
    r#"http://127.1:9000/x?a=1|{"a":1}|POST /x?a=1 HTTP/1.1\r\nHost: 127.0.0.1:9000\r\nContent-Type: application/json\r\nContent-Length: 7\r\nConnection: close\r\n\r\n{"a":1}
http://localhost:80||POST / HTTP/1.1\r\nHost: localhost\r\nContent-Type: application/json\r\nContent-Length: 0\r\nConnection: close\r\n\r\n
http://localhost/a b/%0D%0AX:1?|{}|POST /a%20b/%0D%0AX:1? HTTP/1.1\r\nHost: localhost\r\nContent-Type: application/json\r\nContent-Length: 2\r\nConnection: close\r\n\r\n{}
"#;

fn is_request_met(alloc: Global, row: &str) -> Result<bool, Fail> {
    let (url, text, want) = three(row);
    let want = unescaped(alloc, want)?;
    match Endpoint::read(alloc, url)? {
        Some(endpoint) => Ok(endpoint.request(alloc, text)?.as_slice() == want.as_str().as_bytes()),
        None => Ok(false),
    }
}

#[test]
fn a_request_has_the_path_the_host_the_length_and_the_text(rt: HostRuntime) -> Result<(), Fail> {
    all_met(rt.alloc(), REQUESTS, 3, is_request_met)
}

/// The URL of an endpoint, whether its host is localhost, and its port.
const PLACES: &str = "http://localhost/|true 80
http://LocalHost:9000/|true 9000
http://127.0.0.1:1/|false 1
";

fn is_place_met(alloc: Global, row: &str) -> Result<bool, Fail> {
    let (url, want) = two(row);
    let (is_localhost, port) = match Endpoint::read(alloc, url)? {
        Some(endpoint) => (endpoint.is_localhost(), endpoint.port()),
        None => return Ok(false),
    };
    Ok(format!(in alloc; "{is_localhost} {port}")?.as_str() == want)
}

#[test]
fn an_endpoint_has_a_host_and_a_port(rt: HostRuntime) -> Result<(), Fail> {
    all_met(rt.alloc(), PLACES, 3, is_place_met)
}

/// The bytes of a reply so far, and what they show.
const REPLIES: &str = r"HTTP/1.1 200 OK\r\n\r\n|Whole(200)
HTTP/1.0 503 \r\nA: b\r\n\r\nbody|Whole(503)
HTTP/1.1 204\n\n|Whole(204)
HTTP/1.1 103 Early Hints\r\n\r\nHTTP/1.1 200 OK\r\n\r\n|Whole(200)
HTTP/1.1 100 \r\n\r\nHTTP/1.1 199 \r\n\r\nHTTP/1.1 404 \r\n\r\n|Whole(404)
HTTP/1.1 101 Switching Protocols\r\n\r\n|Whole(101)
HTTP/1.1 999 \r\n\r\n|Whole(999)
|NotYet(None)
HTTP/1.1 200 OK\r\n|NotYet(None)
HTTP/1.1 102 \r\n\r\n|NotYet(Some(102))
HTTP/1.1 100 \r\n\r\nHTTP/1.1 103 \r\n\r\nHTTP|NotYet(Some(103))
HTTP/2 200 \r\n\r\n|Never
garbage|Never
HTTP/1.1 20 OK\r\n\r\n|Never
HTTP/1.1 100 \r\n\r\ngarbage|Never
";

fn shows(alloc: Global, bytes: &str, want: &str) -> Result<bool, Fail> {
    let reply = read_reply(bytes.as_bytes());
    Ok(format!(in alloc; "{reply:?}")?.as_str() == want)
}

fn is_reply_met(alloc: Global, row: &str) -> Result<bool, Fail> {
    let (bytes, want) = two(row);
    shows(alloc, unescaped(alloc, bytes)?.as_str(), want)
}

#[test]
fn the_final_head_gives_the_code(rt: HostRuntime) -> Result<(), Fail> {
    all_met(rt.alloc(), REPLIES, 15, is_reply_met)
}

/// A head by its number of fields `A` before a field `B` and by the number of its bytes, or 0 for a `B` that is empty; and what it shows.
const HEADS: &str = "255|0|Whole(200)
256|0|Never
0|16384|Whole(200)
0|16385|Never
";

fn is_head_met(alloc: Global, row: &str) -> Result<bool, Fail> {
    let (count, size, want) = three(row);
    let fields = "A:\r\n".repeat(alloc, count.parse::<usize>()?)?;
    // All but the value of B has 23 bytes.
    let value = "c".repeat(alloc, size.parse::<usize>()?.saturating_sub(23))?;
    let (fields, value) = (fields.as_str(), value.as_str());
    let head = format!(in alloc; "HTTP/1.1 200 OK\r\n{fields}B:{value}\r\n\r\n")?;
    shows(alloc, head.as_str(), want)
}

#[test]
fn a_head_has_at_most_256_fields_and_16384_bytes(rt: HostRuntime) -> Result<(), Fail> {
    all_met(rt.alloc(), HEADS, 4, is_head_met)
}

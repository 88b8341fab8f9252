//! A stand-in for the server of the story, and what it sends.

/// A stand-in for the server: its responses, in the order in which they are asked for.
#[derive(Clone, Copy)]
pub(crate) struct Server {
    responses: &'static [&'static str],
    sent: usize,
}

impl Server {
    pub(crate) fn new(responses: &'static [&'static str]) -> Server {
        Server { responses, sent: 0 }
    }

    /// Here a program sends the body of a push.
    pub(crate) fn take(&self, _body: &[u8]) {}

    /// Here a program sends the body of a pull, and waits for the bytes that come back.
    pub(crate) fn response_to(&mut self, _body: &[u8]) -> &'static [u8] {
        let Some(response) = self.responses.get(self.sent) else {
            return b"";
        };
        self.sent += 1;
        response.as_bytes()
    }
}

/// To A: an item; what both did, confirmed; a pull that B's overtakes, and the next one; the toggles that are pending,
/// confirmed; and that it has forgotten the group.
pub(crate) const TO_A: &[&str] = &[
    r#"{"cookie":1,"lastMutationIDChanges":{},"patch":[
        {"op":"put","key":"todo/1","value":{"done":false,"text":"bread"}}]}"#,
    r#"{"cookie":2,"lastMutationIDChanges":{
        "00000000-0000-0000-0000-00000000000a":2,
        "00000000-0000-0000-0000-00000000000b":2},"patch":[
        {"op":"put","key":"todo/1","value":{"done":true,"text":"bread"}},
        {"op":"put","key":"todo/2","value":{"done":false,"text":"milk"}},
        {"op":"put","key":"todo/3","value":{"done":false,"text":"green tea"}}]}"#,
    r#"{"cookie":3,"lastMutationIDChanges":{},"patch":[{"op":"del","key":"todo/2"}]}"#,
    r#"{"cookie":3,"lastMutationIDChanges":{},"patch":[]}"#,
    r#"{"cookie":4,"lastMutationIDChanges":{
        "00000000-0000-0000-0000-00000000000a":25},"patch":[
        {"op":"put","key":"todo/1","value":{"done":false,"text":"bread"}}]}"#,
    r#"{"error":"ClientStateNotFound"}"#,
];

/// To B: that an item is gone.
pub(crate) const TO_B: &[&str] = &[
    r#"{"cookie":3,"lastMutationIDChanges":{},"patch":[{"op":"del","key":"todo/2"}]}"#,
];

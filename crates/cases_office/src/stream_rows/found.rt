//! What rows come to.
use crate::stream_rows::command_told::command_told;
use crate::stream_rows::connections::{connection_told, connection_wanted};
use crate::stream_rows::file_told::file_told;
use crate::stream_rows::over_sockets::socket_told;
use crate::stream_rows::stage::Stage;
use crate::words::word;
use std::alloc::Global;
use std::rt::HostRuntime;

/// What a deed comes to. None where it can't be read.
pub(crate) fn deed_told(
    rt: &HostRuntime,
    alloc: Global,
    stage: &mut Stage,
    deed: &str,
) -> Option<String> {
    if let Some(command) = deed.strip_prefix("run ") {
        command_told(alloc, &mut stage.given, command)
    } else if let Some(deed) = deed.strip_prefix("file ") {
        file_told(alloc, stage, deed)
    } else if let Some(deed) = deed.strip_prefix("socket ") {
        socket_told(rt, alloc, stage, deed)
    } else if let Some((name, text)) = deed.split_once(" is ") {
        stage.texts.name(name, text)?;
        Some(String::new(alloc))
    } else {
        connection_told(alloc, stage, deed)
    }
}

/// Whether what a deed's row wants stands for this text. Of a connection it wants bytes, which texts with names may stand for.
pub(crate) fn means(alloc: Global, stage: &Stage, deed: &str, wanted: &str, text: &str) -> bool {
    let is_connection = match word(deed, 0) {
        "==" | "run" | "file" => false,
        "socket" => word(deed, 1) == "new;",
        _ => word(deed, 1) != "is",
    };
    if !is_connection {
        return wanted == text;
    }
    match connection_wanted(alloc, stage, wanted) {
        Some(meant) => meant.as_str() == text,
        None => false,
    }
}

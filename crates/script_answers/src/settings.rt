//! The lines of settings.

ghost use Rattle.std.specs.Prelude.{◌≡◌, ◌++◌, OnOk, OnErr};
ghost use Rattle.script_answers.specs.SettingsLines.{exists_line, settings_line, settings_fault_line, settings_cause_word};

use ds_line::{append_all, append_numbers};
use ds_names::NoRoom;
use rs_settings::SettingsCause;

/// Appends the numbers of services and slots of accepted settings. If memory runs out, the buffer is unchanged.
pub fn append_settings(buffer: &mut Vec<u8>, services: usize, slots: u32) -> Result<(), NoRoom>
    ensures written { OnOk result (buffer.new.items ≡ buffer.old.items ++ settings_line services slots) }
    ensures unchanged { OnErr result (buffer.new.items ≡ buffer.old.items) }
{
    append_numbers(
        buffer,
        &[(b"services ", services as u64), (b" slots ", slots as u64)],
    )
}

/// Appends the refusal of a settings text. If memory runs out, the buffer is unchanged.
pub fn append_settings_fault(buffer: &mut Vec<u8>, cause: SettingsCause) -> Result<(), NoRoom>
    ensures written { OnOk result (buffer.new.items ≡ buffer.old.items ++ settings_fault_line cause) }
    ensures unchanged { OnErr result (buffer.new.items ≡ buffer.old.items) }
{
    append_all(buffer, &[b"refused ", word_of_cause(cause), b"\n"])
}

/// Appends the refusal of settings after accepted ones. If memory runs out, the buffer is unchanged.
pub fn append_exists(buffer: &mut Vec<u8>) -> Result<(), NoRoom>
    ensures written { OnOk result (buffer.new.items ≡ buffer.old.items ++ exists_line) }
    ensures unchanged { OnErr result (buffer.new.items ≡ buffer.old.items) }
{
    append_all(buffer, &[b"refused exists\n"])
}

fn word_of_cause(cause: SettingsCause) -> &'static [u8]
    ensures { result.now ≡ settings_cause_word cause }
{
    match cause {
        SettingsCause::BadToml => b"toml",
        SettingsCause::UnknownField => b"unknownfield",
        SettingsCause::Missing => b"missing",
        SettingsCause::OutOfRange => b"outofrange",
        SettingsCause::TwoLabels => b"twolabels",
        SettingsCause::TwoUnits => b"twounits",
        SettingsCause::SharedName => b"sharedname",
        SettingsCause::NoRoom => b"noroom",
    }
}

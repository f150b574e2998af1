// What C and Rust call of crate fluturenc_settings: saved exposure settings.
//
// Each function is that crate's own of the same name, with the same clauses. In C a slice is a pointer and then a length, and a `&mut` of a
// number a pointer; no two slices of a call may overlap. For C: c/fluturenc.h.

#![tactic(auto)]

ghost use Rattle.std.specs.Prelude.{◌≡◌, length};
ghost use Rattle.exported_call.specs.LentCall.{StateGives, WriteGives};
ghost use Rattle.saved_setting.specs.SavedSettings.{saved_wanted, found_in, saved_again};
ghost use Rattle.fluturenc_settings.specs.SavedBytes.{list_size, list_in, wanted_of, SaveGives, found_call, messages_of};

// The bytes of a list.
#[unsafe(no_mangle)]
pub extern "C" fn fluturenc_settings_length() -> usize
    ensures { result ≡ list_size }
{
    fluturenc_settings::fluturenc_settings_length()
}

// Saves a setting, fine and coarse exposure clipped. Refused: 37 not a list of 64 bytes in order, 29 gain, divisor or frame rate, 31 no version left.
#[unsafe(no_mangle)]
pub extern "C" fn fluturenc_settings_save(
    list: &mut [u8],
    fine: u16,
    coarse: u16,
    gain: u8,
    divisor: u8,
    rate: u8,
    version: &mut u16,
) -> u8
    ensures { SaveGives (saved_wanted (list_in list.old) (wanted_of fine coarse gain divisor rate)) result version.new list.old list.new }
{
    fluturenc_settings::fluturenc_settings_save(list, fine, coarse, gain, divisor, rate, version)
}

// Puts the setting under a version at the front of what is lent for it. Refused: 37, 30 version not held, 12 fewer than eight bytes are lent.
#[unsafe(no_mangle)]
pub extern "C" fn fluturenc_settings_find(list: &[u8], version: u16, setting: &mut [u8]) -> u8
    ensures { StateGives (found_call (found_in (list_in list.now) version) setting.old) result setting.new }
{
    fluturenc_settings::fluturenc_settings_find(list, version, setting)
}

// Saves a copy of the setting under a version, as it was saved then. Refused: 37, 30, 31.
#[unsafe(no_mangle)]
pub extern "C" fn fluturenc_settings_back(list: &mut [u8], version: u16, new: &mut u16) -> u8
    ensures { SaveGives (saved_again (list_in list.old) version) result new.new list.old list.new }
{
    fluturenc_settings::fluturenc_settings_back(list, version, new)
}

// Writes the two-wire messages that write the setting under a version to a sensor's registers, 18 bytes. Refused: 37, 30, 12.
#[unsafe(no_mangle)]
pub extern "C" fn fluturenc_settings_messages(
    list: &[u8],
    version: u16,
    messages: &mut [u8],
    written: &mut usize,
) -> u8
    ensures { WriteGives (messages_of (found_in (list_in list.now) version) (length messages.old)) result written.new messages.old messages.new }
{
    fluturenc_settings::fluturenc_settings_messages(list, version, messages, written)
}

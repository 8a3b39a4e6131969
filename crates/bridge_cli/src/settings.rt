//! What the options of packets set.

ghost use Rattle.std.specs.Prelude.{◌≡◌};
ghost use Rattle.bridge_cli.specs.Runs.{settings_of};

use cif_pack::Settings;
use command_words::PacketOptions;

/// What the options set.
pub fn settings_of(options: &PacketOptions) -> Settings
    ensures { result ≡ settings_of options.now }
{
    Settings {
        mtu: options.mtu,
        seq: options.seq,
        stamp: options.stamp,
        ssrc: options.ssrc,
    }
}

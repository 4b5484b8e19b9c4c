//! Names of the keys that say who may pass.
ghost use Rattle.std.specs.Prelude.{◌≡◌};
ghost use Rattle.road_model.specs.AccessKeys.{key_name};

use crate::AccessKey;

impl AccessKey {
    /// The keys that may decide, the most specific first.
    pub const ALL: [AccessKey; 4] = [
        AccessKey::Motorcar,
        AccessKey::MotorVehicle,
        AccessKey::Vehicle,
        AccessKey::Access,
    ];

    /// The key as tags hold it, as `motor_vehicle`.
    pub fn as_str(self) -> &'static str
        ensures { result.now ≡ key_name self }
    {
        match self {
            AccessKey::Motorcar => "motorcar",
            AccessKey::MotorVehicle => "motor_vehicle",
            AccessKey::Vehicle => "vehicle",
            AccessKey::Access => "access",
        }
    }
}
